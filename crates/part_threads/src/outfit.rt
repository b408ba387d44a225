use crate::carried::Carried;
use crate::ends::Ends;
use crate::further::Further;
use crate::load::Load;
use crate::lookout::Lookout;
use crate::probes::Probes;
use etcd_types::NoMemory;
use outside::{Part, Spawner};
use proxy_parts::{Place, run_part};
use std::alloc::Global;
use std::sync::Wait;
use thread_makers::{Duty, Equips, Open, Work};

/// A part on its way to its thread, but for its place.
#[derive(Drop)]
pub(crate) struct Laid<C> {
    pub(crate) load: Load<C>,
    /// Of a connection, that it counts as one.
    pub(crate) open: Option<Open>,
}

/// What a part meets outside.
#[derive(Drop)]
struct Outfit<E: Ends, F> {
    alloc: Global,
    ends: E,
    link: E::Link,
    clock: E::Clock,
    draw: E::Draw,
    probes: Probes<E>,
    further: F,
}

/// What runs one part. The outfit stands behind a box, since what is moved leaves a copy in each frame that it passes, which stays as long as
/// the thread.
#[derive(Drop)]
pub(crate) struct Equipped<E: Ends, F> {
    outfit: Box<Outfit<E, F>>,
}

/// What gives each part what it meets outside: what `ends` makes, and further parts by an `F`.
#[derive(Drop)]
pub(crate) struct Equipment<E, F> {
    pub(crate) alloc: Global,
    pub(crate) ends: E,
    pub(crate) further: F,
}

impl<E: Ends, F: Further> Equips<Equipped<E, F>> for Equipment<E, F> {
    fn equip(&self, duty: Duty) -> Option<Equipped<E, F>> {
        let draw = match duty {
            Duty::Ticks => self.ends.ticker_draw()?,
            Duty::Talks | Duty::Calls => self.ends.draw()?,
        };
        let outfit = Outfit {
            alloc: self.alloc,
            ends: self.ends.another().ok()?,
            link: self.ends.link().ok()?,
            clock: self.ends.clock().ok()?,
            draw,
            probes: Probes {
                alloc: self.alloc,
                ends: self.ends.another().ok()?,
                own: self.ends.own().ok()?,
            },
            further: self.further.another().ok()?,
        };
        Some(Equipped {
            outfit: Box::new(self.alloc, outfit).ok()?,
        })
    }
}

/// The place of a machine, which can be looked at from now on. Where memory is wanting for that it can't.
fn shown<E: Ends>(ends: &E, place: Place) -> Place {
    let mut place = place;
    if let Ok(lookout) = Lookout::beside(&mut place) {
        ends.shown(lookout);
    }
    place
}

/// The part that is to run at this place, or nothing where the ends of its connection can't be had. Its frame is gone while the part runs.
#[inline(never)]
fn opened<E: Ends>(
    ends: &E,
    clock: &E::Clock,
    place: Place,
    load: Load<E::Conn>,
) -> Option<Part<Place, (E::Source, E::Sink)>> {
    match load {
        Load::Worker => Some(Part::Worker(place)),
        Load::Ticker => Some(Part::Ticker(shown(ends, place))),
        Load::Follower(follow) => Some(Part::Follower(place, follow)),
        Load::Connection(connection, tickets) => match ends.open(connection, clock) {
            Ok(both) => Some(Part::Connection(place, both, tickets)),
            Err(NoMemory) => None,
        },
    }
}

impl<R: Wait, E: Ends, F: Spawner<Pass = Place, Conn = E::Conn> + Drop> Work<
    R,
    Carried,
    Laid<E::Conn>,
> for Equipped<E, F> {
    /// Runs the part, and closes a connection behind it.
    fn work(self, rt: &R, with: Carried, load: Laid<E::Conn>) {
        let Equipped { mut outfit } = self;
        let outfit = &mut *outfit;
        let Laid { load, open } = load;
        let Some(part) = opened(&outfit.ends, &outfit.clock, with.unpack(), load) else {
            return;
        };
        let done = run_part(
            rt,
            outfit.alloc,
            part,
            &mut outfit.link,
            &mut outfit.further,
            &mut outfit.clock,
            &mut outfit.draw,
            &mut outfit.probes,
        );
        if let (Some(source), Some(sink)) = (done.source, done.sink) {
            outfit.ends.close(source, sink);
        }
        drop(open);
    }
}
