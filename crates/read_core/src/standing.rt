ghost use Rattle.std.specs.Prelude.{◌≡◌, []};
ghost use Rattle.std.specs.Option.{option_copied};
ghost use Rattle.proxy_model.specs.LeaseTable.{is_writing, is_writing_phase};
ghost use Rattle.read_model.specs.PlainRead.{key_of, ask_key};
ghost use Rattle.read_model.specs.Release.{names};
ghost use Rattle.read_core.specs.Falls.{stands_on};

use acquire_rows::Acquires;
use core_model::Acquire;
use etcd_types::{Bytes, Request};
use known_asks::{Asked, Stage};
use lease_table::{Entry, LeaseTable, Phase};

/// The key of a plain read, or for any other request the empty key, which is handed in.
pub fn key_of<'a>(request: &'a Request, empty: &'a Bytes) -> &'a Bytes
    requires { empty.now ≡ [] }
    ensures { result.now ≡ key_of request.now }
{
    match request {
        Request::Range(ask) => &ask.range.key,
        _ => empty,
    }
}

/// Whether what the request waits for stands at this key, which is its own.
pub(crate) fn stands_at(ask: &Asked, key: &Bytes, table: &LeaseTable, acquires: &Acquires) -> bool
    requires { key.now ≡ ask_key ask.now }
    ensures { result ≡ stands_on table.now.entries acquires.now ask.now }
{
    match ask.stage {
        Stage::Acquiring => names(ask.ticket, acquires.find(key)),
        Stage::Joined => acquires.find(key).is_some(),
        Stage::Behind => is_writing(table.find(key)),
        _ => true,
    }
}

fn names(ticket: u64, acquire: Option<&Acquire>) -> bool
    ensures { result ≡ names ticket (option_copied acquire.entry) }
{
    match acquire {
        Some(acquire) => acquire.ticket == ticket,
        None => false,
    }
}

fn is_writing(entry: Option<&Entry>) -> bool
    ensures { result ≡ is_writing (option_copied entry.entry) }
{
    match entry {
        Some(entry) => is_writing_phase(entry.phase),
        None => false,
    }
}

fn is_writing_phase(phase: Phase) -> bool
    ensures { result ≡ is_writing_phase phase }
{
    matches!(phase, Phase::Writing { .. })
}
