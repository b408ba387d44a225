ghost use Rattle.std.specs.Prelude.{◌≡◌};
ghost use Rattle.part_threads.specs.Loads.{part_of};

use outside::{Follow, Part, TicketRange};
use proxy_parts::Place;
use thread_makers::Duty;

/// What a part is, but for its place.
#[derive(Drop)]
pub(crate) enum Load<C> {
    Worker,
    Ticker,
    Connection(C, TicketRange),
    Follower(Follow),
}

impl<C> Load<C> {
    /// What the part's thread is for.
    pub(crate) fn duty(&self) -> Duty {
        match self {
            Load::Ticker => Duty::Ticks,
            Load::Connection(..) => Duty::Talks,
            Load::Worker | Load::Follower(_) => Duty::Calls,
        }
    }
}

/// A part taken apart.
pub(crate) fn split<C>(part: Part<Place, C>) -> (Place, Load<C>)
    ensures { part_of result.0 result.1 ≡ part }
{
    match part {
        Part::Worker(place) => (place, Load::Worker),
        Part::Ticker(place) => (place, Load::Ticker),
        Part::Connection(place, connection, tickets) => {
            (place, Load::Connection(connection, tickets))
        }
        Part::Follower(place, follow) => (place, Load::Follower(follow)),
    }
}

/// The part that was taken apart.
pub(crate) fn join<C>(place: Place, load: Load<C>) -> Part<Place, C>
    ensures { result ≡ part_of place load }
{
    match load {
        Load::Worker => Part::Worker(place),
        Load::Ticker => Part::Ticker(place),
        Load::Connection(connection, tickets) => Part::Connection(place, connection, tickets),
        Load::Follower(follow) => Part::Follower(place, follow),
    }
}
