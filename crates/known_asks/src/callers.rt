ghost use Rattle.std.specs.Prelude.{◌≡◌, if◌then◌else◌};
ghost use Rattle.core_model.specs.Lookups.{calls_as, stage_calls};
ghost use Rattle.known_asks.specs.declared.callers.Callers.TheVariants.{One, Several};

use read_model::{Asked, Stage};
use wait_model::Sending;

/// The requests whose own call one call is.
#[derive(Clone, Copy, Debug, PartialEq, Eq)]
pub enum Callers {
    /// There is none.
    Nobody,
    /// The one of this ticket, and no other.
    One(u64),
    /// There may be several: each has to be looked at.
    Several,
}

/// The one of this ticket alone, unless the next request behind it calls so too.
pub(crate) fn callers_before(next: &Asked, ticket: u64, call: u64) -> Callers
    ensures { result ≡ (if calls_as call next.now then Several else One ticket) }
{
    if calls_as(next, call) {
        Callers::Several
    } else {
        Callers::One(ticket)
    }
}

/// Whether the request waits for this call of its own.
pub fn calls_as(ask: &Asked, call: u64) -> bool
    ensures { result ≡ calls_as call ask.now }
{
    stage_calls(&ask.stage, call)
}

fn stage_calls(stage: &Stage, call: u64) -> bool
    ensures { result ≡ stage_calls call stage.now }
{
    match stage {
        Stage::Calling(Sending::Out { call: number }) => *number == call,
        _ => false,
    }
}
