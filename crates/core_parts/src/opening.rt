ghost use Rattle.std.specs.Prelude.{◌≡◌, IfOk};
ghost use Rattle.std.specs.Option.{option_map, option_copied};
ghost use Rattle.proxy_model.specs.Upstream.{created, advance};
ghost use Rattle.core_model.specs.LeasingStream.{opening_of, watch_of, opening_sent};
ghost use Rattle.core_model.specs.Lookups.{stands_created};
ghost use Rattle.core_model.specs.Step.{opening_at};
ghost use Rattle.core_parts.specs.Openings.{reopened, renewed, with_stream};

use etcd_types::{NoMemory, Request, WatchAsk};
use std::alloc::Global;
use std::marker::Model;
use watch_resume::Upstream;

/// The leasing stream.
#[derive(Debug, Drop)]
pub struct Opening {
    pub number: u64,
    /// Since when its opening is due; nothing once it was sent.
    pub due: Option<u64>,
    pub stream: Upstream,
}

impl Model for Opening {
    ghost use Rattle.core_model.specs.State.{Opening as Parts};

    ghost Value = { Parts };

    ghost view = { λ o. record { number = o.number; due = o.due; stream = o.stream } };
}

/// A stream that is to be opened under this number, since this step.
pub fn opening_of(number: u64, step: u64, stream: Upstream) -> Opening
    ensures { result ≡ opening_of number step stream }
{
    Opening {
        number,
        due: Some(step),
        stream,
    }
}

/// The leasing stream, where it has this number now.
pub fn opening_at(number: u64, leasing: &Option<Opening>) -> Option<&Opening>
    ensures { option_copied result ≡ opening_at number leasing.now }
{
    match leasing {
        Some(opening) if opening.number == number => Some(opening),
        _ => None,
    }
}

/// Whether the leasing stream stands created.
pub fn stands_created(leasing: &Option<Opening>) -> bool
    ensures { result ≡ stands_created leasing.now }
{
    match leasing {
        None => false,
        Some(opening) => opening.stream.is_created(),
    }
}

/// The leasing stream broke off: it is to be opened again under this number, since this step, from its next revision on.
pub fn cut_opening(leasing: &mut Option<Opening>, number: u64, step: u64)
    ensures { leasing.new ≡ option_map (reopened number step) leasing.old }
{
    if let Some(opening) = leasing {
        opening.number = number;
        opening.due = Some(step);
        opening.stream.cut();
    }
}

/// The leasing stream begins anew: it is to be opened under this number, since this step, behind the newest revision.
pub fn renew_opening(leasing: &mut Option<Opening>, number: u64, step: u64)
    ensures { leasing.new ≡ option_map (renewed number step) leasing.old }
{
    if let Some(opening) = leasing {
        opening.number = number;
        opening.due = Some(step);
        opening.stream.cancelled(1);
    }
}

/// The leasing stream's created message came, whose header has this revision.
pub fn create_opening(leasing: &mut Option<Opening>, revision: u64)
    ensures { leasing.new ≡ option_map (λ o. with_stream (created o.stream revision) o) leasing.old }
{
    if let Some(opening) = leasing {
        opening.stream.created(revision);
    }
}

/// All events up to this revision were told on the leasing stream.
pub fn advance_opening(leasing: &mut Option<Opening>, last: u64)
    ensures { leasing.new ≡ option_map (λ o. with_stream (advance o.stream last) o) leasing.old }
{
    if let Some(opening) = leasing {
        opening.stream.advance(last);
    }
}

/// The opening was sent.
pub fn send_opening(leasing: &mut Option<Opening>)
    ensures { leasing.new ≡ option_map opening_sent leasing.old }
{
    if let Some(opening) = leasing {
        opening.due = None;
    }
}

/// What the opening of a stream asks for: no event is left out, and none brings the record before it.
pub fn watch_of(alloc: Global, stream: &Upstream) -> Result<Request, NoMemory>
    ensures { IfOk result (λ request. request ≡ watch_of stream.now) }
{
    let (range, start) = stream.reopen();
    Ok(Request::Watch(WatchAsk {
        range: range.copy(alloc)?,
        start,
        no_put: false,
        no_delete: false,
        prev_kv: false,
        progress: false,
    }))
}
