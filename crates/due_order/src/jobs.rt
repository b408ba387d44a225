ghost use Rattle.std.specs.Prelude.{◌≡◌};
ghost use Rattle.core_model.specs.DueJobs.{earlier};
ghost use Rattle.due_order.specs.Seen.{placed_seen, first_seen};

use crate::places::is_earlier;
use core_model::Acquire;
use core_parts::Opening;
use etcd_types::Bytes;
use known_asks::Asked;
use session_keep::Session;
use wait_model::Place;
use watch_model::Stream;

/// A due job of what a proxy has.
#[derive(Clone, Copy, Debug)]
pub enum DueJob<'a> {
    /// A grant or a keepalive of the session.
    Session(&'a Session),
    /// A rescind, a call that asks an owner, or a write's own.
    Writes,
    /// The acquire of this key.
    Acquire {
        key: &'a Bytes,
        acquire: &'a Acquire,
    },
    /// The request's own call.
    Ask(&'a Asked),
    /// The keepalives of this lease, for the one of least ticket.
    Group {
        lease: u64,
        ticket: u64,
    },
    /// The leasing stream's opening.
    Open(&'a Opening),
    /// A client stream's opening or closing.
    Stream(&'a Stream),
}

/// A due job, and where it stands among all.
#[derive(Clone, Copy, Debug)]
pub(crate) struct Placed<'a> {
    pub place: Place,
    pub job: DueJob<'a>,
}

/// The one that is sent first: the first one, unless the second comes before it.
pub(crate) fn earlier<'a>(first: Option<Placed<'a>>, second: Placed<'a>) -> Placed<'a>
    ensures { placed_seen result ≡ earlier (first_seen first.entry) (placed_seen second.entry) }
{
    match first {
        None => second,
        Some(first) => {
            if is_earlier(&second.place, &first.place) {
                second
            } else {
                first
            }
        }
    }
}
