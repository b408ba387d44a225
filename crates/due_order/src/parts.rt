ghost use Rattle.std.specs.Prelude.{◌≡◌};
ghost use Rattle.std.specs.Option.{option_copied, option_map};
ghost use Rattle.wait_model.specs.declared.due.JobKind.TheVariants.{Call};
ghost use Rattle.wait_model.specs.DueOrder.{place_at};
ghost use Rattle.core_model.specs.DueJobs.{earliest, due_writes, due_acquire, due_ask, lease_of, due_at, due_opening, due_stream};
ghost use Rattle.acquire_rows.specs.First.{row_seen};
ghost use Rattle.due_order.specs.Seen.{first_seen};
ghost use Rattle.due_order.specs.Parts.{with_first_acquire, with_first_ask, with_first_stream};

use crate::jobs::{DueJob, Placed, earlier};
use acquire_rows::DueAcquire;
use core_parts::Opening;
use etcd_types::Request;
use known_asks::{Asked, Stage};
use wait_model::{JobKind, Place, Sending};
use watch_model::{Stream, StreamPhase};

/// The first one, or the first due call of a write, where that is earlier.
pub(crate) fn with_writes<'a>(first: Option<Placed<'a>>, place: Option<Place>) -> Option<Placed<'a>>
    ensures { first_seen result ≡ earliest (first_seen first.entry) (due_writes place) }
{
    match place {
        None => first,
        Some(place) => Some(earlier(
            first,
            Placed {
                place,
                job: DueJob::Writes,
            },
        )),
    }
}

/// The first one, or the acquire that is due first, where that is earlier.
pub(crate) fn with_first_acquire<'a>(
    first: Option<Placed<'a>>,
    due: Option<DueAcquire<'a>>,
) -> Option<Placed<'a>>
    ensures { first_seen result ≡ with_first_acquire (first_seen first.entry) (option_map row_seen due.entry) }
{
    match due {
        None => first,
        Some(due) => with_acquire(first, due),
    }
}

fn with_acquire<'a>(first: Option<Placed<'a>>, due: DueAcquire<'a>) -> Option<Placed<'a>>
    ensures { first_seen result ≡ earliest (first_seen first.entry) (due_acquire (row_seen due.entry)) }
{
    let DueAcquire { key, acquire } = due;
    match acquire.sending {
        Sending::Out { .. } => first,
        Sending::Due { since } => Some(earlier(
            first,
            Placed {
                place: call_at(since, acquire.ticket),
                job: DueJob::Acquire { key, acquire },
            },
        )),
    }
}

fn call_at(since: u64, ticket: u64) -> Place
    ensures { result ≡ place_at since Call ticket }
{
    Place {
        since,
        kind: JobKind::Call,
        number: ticket,
    }
}

/// The first one, or the call of the request that is due first, where that is earlier.
pub(crate) fn with_first_ask<'a>(
    first: Option<Placed<'a>>,
    ask: Option<&'a Asked>,
) -> Option<Placed<'a>>
    ensures { first_seen result ≡ with_first_ask (first_seen first.entry) (option_copied ask.entry) }
{
    match ask {
        None => first,
        Some(ask) => with_ask(first, ask),
    }
}

fn with_ask<'a>(first: Option<Placed<'a>>, ask: &'a Asked) -> Option<Placed<'a>>
    ensures { first_seen result ≡ earliest (first_seen first.entry) (due_ask ask.now) }
{
    match &ask.stage {
        Stage::Calling(Sending::Due { since }) => Some(earlier(
            first,
            Placed {
                place: call_at(*since, ask.ticket),
                job: DueJob::Ask(ask),
            },
        )),
        Stage::Grouped(Some(Sending::Due { since })) => Some(earlier(
            first,
            Placed {
                place: call_at(*since, ask.ticket),
                job: DueJob::Group {
                    lease: lease_of(&ask.request),
                    ticket: ask.ticket,
                },
            },
        )),
        Stage::Calling(Sending::Out { .. })
        | Stage::Grouped(Some(Sending::Out { .. }) | None)
        | Stage::Acquiring
        | Stage::Joined
        | Stage::Behind
        | Stage::Writes
        | Stage::Replied(_) => first,
    }
}

/// The lease of a keepalive; 0 for any other request.
fn lease_of(request: &Request) -> u64
    ensures { result ≡ lease_of request.now }
{
    match request {
        Request::KeepAlive { lease } => *lease,
        _ => 0,
    }
}

/// The first one, or the leasing stream's opening, where that is due and earlier.
pub(crate) fn with_opening<'a>(
    first: Option<Placed<'a>>,
    leasing: &'a Option<Opening>,
) -> Option<Placed<'a>>
    ensures { first_seen result ≡ earliest (first_seen first.entry) (due_opening leasing.now) }
{
    match leasing {
        None => first,
        Some(opening) => with_due_opening(first, opening),
    }
}

fn with_due_opening<'a>(first: Option<Placed<'a>>, opening: &'a Opening) -> Option<Placed<'a>>
    ensures { first_seen result ≡ earliest (first_seen first.entry) (due_at opening.now opening.now.due) }
{
    match opening.due {
        None => first,
        Some(since) => Some(earlier(
            first,
            Placed {
                place: Place {
                    since,
                    kind: JobKind::Open,
                    number: opening.number,
                },
                job: DueJob::Open(opening),
            },
        )),
    }
}

/// The first one, or this stream's closing or opening, where that is due and earlier.
pub(crate) fn with_stream<'a>(
    first: Option<Placed<'a>>,
    stream: Option<&'a Stream>,
) -> Option<Placed<'a>>
    ensures { first_seen result ≡ with_first_stream (first_seen first.entry) (option_copied stream.entry) }
{
    match stream {
        None => first,
        Some(stream) => with_due_stream(first, stream),
    }
}

fn with_due_stream<'a>(first: Option<Placed<'a>>, stream: &'a Stream) -> Option<Placed<'a>>
    ensures { first_seen result ≡ earliest (first_seen first.entry) (due_stream stream.now) }
{
    let (since, kind) = match stream.phase {
        StreamPhase::Begun => return first,
        StreamPhase::Due { since } => (since, JobKind::Open),
        StreamPhase::Closing { since } => (since, JobKind::Close),
    };
    Some(earlier(
        first,
        Placed {
            place: Place {
                since,
                kind,
                number: stream.number,
            },
            job: DueJob::Stream(stream),
        },
    ))
}
