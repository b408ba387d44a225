use crate::carried::Carried;
use crate::ends::ShopEnds;
use etcd_types::NoMemory;
use std::alloc::Global;
use std::sync::Wait;
use store_serve::{StorePlace, serve_store};
use thread_makers::{Duty, Equips, Open, Work};

/// An accepted connection on its way to its thread, and that it counts as one.
#[derive(Drop)]
pub(crate) struct Laid<C> {
    pub(crate) connection: C,
    pub(crate) open: Open,
}

/// What a connection meets outside, but for its two ends.
#[derive(Drop)]
struct Outfit<E: ShopEnds> {
    alloc: Global,
    ends: E,
    clock: E::Clock,
}

/// What serves one connection. The outfit stands behind a box, since what is moved leaves a copy in each frame that it passes, which stays
/// as long as the thread.
#[derive(Drop)]
pub(crate) struct Equipped<E: ShopEnds> {
    outfit: Box<Outfit<E>>,
}

/// What gives each connection what it meets outside: what `ends` makes.
#[derive(Drop)]
pub(crate) struct Equipment<E> {
    pub(crate) alloc: Global,
    pub(crate) ends: E,
}

impl<E: ShopEnds> Equips<Equipped<E>> for Equipment<E> {
    fn equip(&self, _duty: Duty) -> Option<Equipped<E>> {
        let outfit = Outfit {
            alloc: self.alloc,
            ends: self.ends.another().ok()?,
            clock: self.ends.clock().ok()?,
        };
        Some(Equipped {
            outfit: Box::new(self.alloc, outfit).ok()?,
        })
    }
}

impl<R: Wait, E: ShopEnds> Work<R, Carried, Laid<E::Conn>> for Equipped<E> {
    /// Serves the connection, and closes it.
    fn work(self, rt: &R, with: Carried, load: Laid<E::Conn>) {
        let Equipped { mut outfit } = self;
        let outfit = &mut *outfit;
        let Laid { connection, open } = load;
        let (mut source, mut sink) = match outfit.ends.open(connection) {
            Ok(both) => both,
            Err(NoMemory) => return,
        };
        let StorePlace { hub, mut pass } = with.unpack();
        let _ = serve_store(
            rt,
            outfit.alloc,
            &hub,
            &mut pass,
            &mut outfit.clock,
            &mut source,
            &mut sink,
        );
        outfit.ends.close(source, sink);
        drop(open);
    }
}
