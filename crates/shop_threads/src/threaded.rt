ghost use Rattle.std.specs.Prelude.{◌≡◌, IfErr, IfSome, None, ◌∷◌, []};
ghost use Rattle.outside.specs.Calls.{Adds, Handed, is_done};
ghost use Rattle.outside.specs.Faults.{HasCause};
ghost use Rattle.outside.specs.declared.parts.Part.{Part};
ghost use Rattle.store_serve.specs.declared.place.StorePlace.{StorePlace};

use crate::carried::Carried;
use crate::ends::ShopEnds;
use crate::outfit::{Equipment, Equipped, Laid};
use outside::{Part, Spawner};
use std::alloc::Global;
use std::rt::Clock as Times;
use std::sync::atomic::AtomicU64;
use std::sync::{Arc, Wait};
use std::thread::Threads;
use store_serve::StorePlace;
use thread_makers::{Desk, Duty, Maker, Open, begin_making};

/// What serves each connection in a thread of its own, and starts no other part. It tells nothing of the connections; where no thread can
/// be made, it is said why in one line on the standard error.
#[derive(Drop)]
pub struct ShopsOf<R, C, P> {
    rt: R,
    alloc: Global,
    maker: Maker<P, Laid<C>>,
    /// How many connections are open.
    open: Arc<AtomicU64, Global>,
    /// How many may be open at once.
    most: u64,
    faults: u64,
}

/// What serves connections to a store, whose clients are these.
pub type Shops<R, C> = ShopsOf<R, C, Carried>;

/// What serves connections to a store, and has served none, or nothing where memory or a thread is wanting. They meet outside what `ends`
/// makes, and there are `most` at once at most.
pub fn shops_of<
    R: Threads + Wait + Times + Eprint + Copy + Send + 'static,
    E: ShopEnds + Send + 'static,
>(rt: R, alloc: Global, ends: E, most: u64) -> Option<Shops<R, E::Conn>>
where
    E::Conn: Send + 'static,
    E::Source: Send + 'static,
    E::Sink: Send + 'static,
    E::Clock: Send + 'static,
    ensures fresh { IfSome result (λ shops. shops.faults ≡ 0) }
{
    let equipment = Equipment { alloc, ends };
    Some(ShopsOf {
        rt,
        alloc,
        maker: begin_making::<R, Carried, Laid<E::Conn>, Equipped<E>, Equipment<E>>(
            rt, alloc, equipment,
        )?,
        open: Arc::new(alloc, AtomicU64::new(0)).ok()?,
        most,
        faults: 0,
    })
}

impl<R: Wait + Drop, C: Drop> ShopsOf<R, C, Carried> {
    /// A thread for one connection more, in which its requests are executed too, and that it counts as one. Nothing where it is one too
    /// many or no thread can be made.
    fn desk(&self) -> Option<(Open, Desk<Carried, Laid<C>>)> {
        let open = Open::count(&self.open, self.most)?;
        let desk = self.maker.desk(&self.rt, self.alloc, Duty::Calls)?;
        Some((open, desk))
    }
}

impl<R: Wait + Drop, C: Drop> Spawner for ShopsOf<R, C, Carried> {
    type Pass = StorePlace;

    type Conn = C;

    ghost use Rattle.std.specs.Prelude.{None};

    ghost handed = { λ s. None };

    ghost faults = { λ s. s.faults };

    /// It fails where no thread can be made, where what the connection meets outside can't be had, and where it is one too many. Parts
    /// that are no connections are refused.
    fn start(&mut self, part: Part<StorePlace, C>) -> Result<(), Part<StorePlace, C>>
        ensures untold { Adds {A = Handed (Part StorePlace C)} None None (record { part = part; started = is_done result } ∷ []) }
        ensures back { IfErr result (λ refused. refused ≡ part) }
        ensures cause { HasCause self.old.faults self.new.faults result }
    {
        match part {
            Part::Connection(place, connection, tickets) => match self.desk() {
                Some((open, desk)) => {
                    desk.with.lay(&self.rt, Carried::pack(place));
                    desk.load.lay(&self.rt, Laid { connection, open });
                    Ok(())
                }
                None => {
                    self.faults = self.faults.saturating_add(1);
                    Err(Part::Connection(place, connection, tickets))
                }
            },
            part => {
                self.faults = self.faults.saturating_add(1);
                Err(part)
            }
        }
    }
}
