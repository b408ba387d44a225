ghost use Rattle.std.specs.Prelude.{◌≡◌, IfErr, IfOk, IfSome, None, ◌∷◌, []};
ghost use Rattle.outside.specs.Calls.{Adds, Handed, is_done};
ghost use Rattle.outside.specs.Faults.{HasCause};
ghost use Rattle.outside.specs.declared.parts.Part.{Part};
ghost use Rattle.proxy_parts.specs.declared.place.Place.{Place};

use crate::carried::Carried;
use crate::ends::Ends;
use crate::further::Further;
use crate::load::{Load, join, split};
use crate::outfit::{Equipment, Equipped, Laid};
use etcd_types::NoMemory;
use outside::{Part, Spawner};
use proxy_parts::Place;
use std::alloc::Global;
use std::rt::Clock as Times;
use std::sync::atomic::AtomicU64;
use std::sync::{Arc, Wait};
use std::thread::Threads;
use thread_makers::{Maker, Nothing, Open, begin_making};

/// What starts each part in a thread of its own. It tells nothing of the parts; where no thread can be made, it is said why in one line on
/// the standard error. What the parts meet outside isn't its own but that of the thread which makes threads for it: so its type says only
/// what a client is, and is soon compared where it is handed over.
#[derive(Drop)]
pub struct Threaded<R, C, P> {
    rt: R,
    alloc: Global,
    maker: Maker<P, Laid<C>>,
    /// How many connections are open.
    open: Arc<AtomicU64, Global>,
    /// So many connections are open at once at most.
    most: u64,
    faults: u64,
}

/// What starts the parts of a server, whose clients are these.
pub type Server<R, C> = Threaded<R, C, Carried>;

/// What starts parts which meet outside what `ends` makes and start further ones by `further`, or nothing where memory or a thread is
/// wanting.
fn starting<
    R: Threads + Wait + Times + Eprint + Copy + Send + 'static,
    E: Ends + Send + 'static,
    F: Further + Spawner<Pass = Place, Conn = E::Conn> + Send + 'static,
>(rt: R, alloc: Global, ends: E, further: F, most: u64) -> Option<Server<R, E::Conn>>
where
    E::Conn: Send + 'static,
    E::Source: Send + 'static,
    E::Sink: Send + 'static,
    E::Answer: Send + 'static,
    E::Link: Send + 'static,
    E::Clock: Send + 'static,
    E::Draw: Send + 'static,
    ensures fresh { IfSome result (λ threaded. threaded.faults ≡ 0) }
{
    let equipment = Equipment {
        alloc,
        ends,
        further,
    };
    Some(Threaded {
        rt,
        alloc,
        maker: begin_making::<R, Carried, Laid<E::Conn>, Equipped<E, F>, Equipment<E, F>>(
            rt, alloc, equipment,
        )?,
        open: Arc::new(alloc, AtomicU64::new(0)).ok()?,
        most,
        faults: 0,
    })
}

/// What starts the parts of a server, at most so many connections at once, and has started none, or nothing where memory or a thread is
/// wanting. They meet outside what `ends` makes. A worker among them starts followers, and a follower starts nothing.
pub fn spawner_of<
    R: Threads + Wait + Times + Eprint + Copy + Drop + Send + 'static,
    E: Ends + Send + 'static,
>(rt: R, alloc: Global, ends: E, most: u64) -> Option<Server<R, E::Conn>>
where
    E::Conn: Send + 'static,
    E::Source: Send + 'static,
    E::Sink: Send + 'static,
    E::Answer: Send + 'static,
    E::Link: Send + 'static,
    E::Clock: Send + 'static,
    E::Draw: Send + 'static,
    ensures fresh { IfSome result (λ threaded. threaded.faults ≡ 0) }
{
    let followers = starting(rt, alloc, ends.another().ok()?, Nothing::new(), most)?;
    starting(rt, alloc, ends, followers, most)
}

impl<R: Copy + Drop, C: Drop> Further for Threaded<R, C, Carried> {
    fn another(&self) -> Result<Server<R, C>, NoMemory>
        ensures fresh { IfOk result (λ threaded. threaded.faults ≡ 0) }
    {
        let maker = self.maker.another()?;
        let open = Arc::try_clone(&self.open)?;
        Ok(Threaded {
            rt: self.rt,
            alloc: self.alloc,
            maker,
            open,
            most: self.most,
            faults: 0,
        })
    }
}

impl<R, C> Threaded<R, C, Carried> {
    /// Of a connection, that it counts as one. Nothing where it is one too many.
    fn counted(&self, load: &Load<C>) -> Option<Option<Open>> {
        match load {
            Load::Connection(..) => Some(Some(Open::count(&self.open, self.most)?)),
            _ => Some(None),
        }
    }
}

impl<R: Wait + Drop, C: Drop> Spawner for Threaded<R, C, Carried> {
    type Pass = Place;

    type Conn = C;

    ghost use Rattle.std.specs.Prelude.{None};

    ghost handed = { λ s. None };

    ghost faults = { λ s. s.faults };

    /// It fails where no thread can be made, where what the part meets outside can't be had, and where a connection is one too many.
    fn start(&mut self, part: Part<Place, C>) -> Result<(), Part<Place, C>>
        ensures untold { Adds {A = Handed (Part Place C)} None None (record { part = part; started = is_done result } ∷ []) }
        ensures back { IfErr result (λ refused. refused ≡ part) }
        ensures cause { HasCause self.old.faults self.new.faults result }
    {
        let (place, load) = split(part);
        let made = match self.counted(&load) {
            Some(open) => match self.maker.desk(&self.rt, self.alloc, load.duty()) {
                Some(desk) => Some((open, desk)),
                None => None,
            },
            None => None,
        };
        // The steps stand here and not in a function of their own, since a check covers no call of one that hands over to a thread here.
        match made {
            Some((open, desk)) => {
                desk.with.lay(&self.rt, Carried::pack(place));
                desk.load.lay(&self.rt, Laid { load, open });
                Ok(())
            }
            None => {
                self.faults = self.faults.saturating_add(1);
                Err(join(place, load))
            }
        }
    }
}
