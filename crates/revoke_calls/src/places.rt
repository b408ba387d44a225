ghost use Rattle.std.specs.Prelude.{◌≡◌, None};
ghost use Rattle.std.specs.List.{flat_map};
ghost use Rattle.wait_model.specs.DueOrder.{first_place, due_of, due_found, due_calls, earliest, earlier, is_earlier};
ghost use Rattle.revoke_calls.specs.Dues.{places};

use crate::due::{kind_rank, less_then};
use wait_model::{Asking, Found, JobKind, Place, Sending, Write, WriteStage};

/// Where the first of the writes' due calls stands among all due jobs.
pub fn first_place(writes: &[Write]) -> Option<Place>
    ensures { result ≡ first_place writes.now }
{
    let mut first = None;
    for write in writes {
        first = with_write(first, write);
    }
    first
}

fn with_write(first: Option<Place>, write: &Write) -> Option<Place>
    ensures { result ≡ earliest first (places (due_of write.now)) }
{
    match &write.stage {
        WriteStage::Sends {
            sending: Sending::Due { since },
            ..
        } => {
            let call = Place {
                since: *since,
                kind: JobKind::Call,
                number: write.ticket,
            };
            Some(earlier(first, call))
        }
        WriteStage::Finds { found } => with_found(first, write.ticket, found.as_slice()),
        WriteStage::Waiting | WriteStage::Sends { .. } => first,
    }
}

fn with_found(before: Option<Place>, ticket: u64, found: &[Found]) -> Option<Place>
    ensures { result ≡ earliest before (places (flat_map (due_found ticket) found.now)) }
{
    let mut first = before;
    for one in found {
        first = with_asking(first, ticket, one);
    }
    first
}

fn with_asking(first: Option<Place>, ticket: u64, found: &Found) -> Option<Place>
    ensures { result ≡ earliest first (places (due_found ticket found.now)) }
{
    match found.revoke {
        Asking::Due { since } => {
            let call = Place {
                since,
                kind: JobKind::Revoke,
                number: ticket,
            };
            Some(earlier(first, call))
        }
        Asking::Out { .. } | Asking::Done => first,
    }
}

fn earlier(first: Option<Place>, place: Place) -> Place
    ensures { result ≡ earlier first place }
{
    match first {
        None => place,
        Some(other) => {
            if is_earlier(&place, &other) {
                place
            } else {
                other
            }
        }
    }
}

/// Whether a job of this place is sent before one of that place.
fn is_earlier(place: &Place, other: &Place) -> bool
    ensures { result ≡ is_earlier place.now other.now }
{
    let rank = kind_rank(place.kind);
    let other_rank = kind_rank(other.kind);
    less_then(
        place.since,
        other.since,
        less_then(rank, other_rank, place.number < other.number),
    )
}
