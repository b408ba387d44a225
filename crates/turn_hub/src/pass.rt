ghost use Rattle.std.specs.Prelude.{◌≡◌, ℕ, List};
ghost use Rattle.atomic_table.specs.Table.{Me};

use crate::history::Entry;
use crate::view::{Knows, Opening, Slot, Stowed, View};
use crate::waiting::Rest;
use atomic_table::Seat;
use outside::{CREWS, LOTS, Machine};
use std::marker::{Model, PhantomData};
use std::snapshot::Snapshot;

/// A right to step one hub, which it came with or was split off for. Contracts see which hub that is, the beginning of
/// the hub's history that the pass has seen, and the places of its own entries in it.
///
/// It takes a few bytes, and may go to another thread. It also carries the lot in which it rests when it waits.
pub type Pass<M> = PassOf<
    Slot<M>,
    Knows<M>,
    Snapshot<Opening<M>>,
    Opening<M>,
    Entry<<M as Machine>::Event, <M as Machine>::Outcome, <M as Machine>::Fault>,
    Rests,
>;

/// What a seat's view says of the history, and what holds of the seat between calls.
pub trait Resting<S, V, G, K, N> {
    ghost opened: { G → K };

    ghost seen: { V → List N };

    ghost own: { V → List ℕ };

    ghost rests: { G → Me S V → Type 0 };
}

/// The `Resting` of a hub's seats.
pub struct Rests;

impl<M, E, O, F> Resting<
    Stowed<M, E, O, F>,
    View<M, E, O, F>,
    Snapshot<Opening<M>>,
    Opening<M>,
    Entry<E, O, F>,
> for Rests {
    ghost use Rattle.turn_hub.specs.Passes.{AtRest};

    ghost opened = { λ g. g.value };

    ghost seen = { λ v. v.seen };

    ghost own = { λ v. v.own };

    ghost rests = { λ opened. AtRest opened.value };
}

/// A `Pass`, in terms of plain types: only so does a check find that it may cross threads.
#[derive(Drop)]
pub struct PassOf<S, V, G, K, N, Q: Resting<S, V, G, K, N>> {
    pub(crate) seat: Seat<S, V>,
    pub(crate) opened: G,
    pub(crate) rest: Rest,
    pub(crate) of: PhantomData<(K, N, Q)>,
}

impl<S, V, G, K, N, Q: Resting<S, V, G, K, N>> Model for PassOf<S, V, G, K, N, Q> {
    ghost use Rattle.turn_hub.specs.Known.{Known};

    ghost Value = { Known K N };

    ghost view = { λ p. record { hub = record { table = p.seat.table_id; opened = Q.opened p.opened }; seen = Q.seen p.seat.me.0; own = Q.own p.seat.me.0 } };

    ghost invariant = { λ p. Q.rests p.opened p.seat.me };
}

impl<S, V, G, K, N, Q: Resting<S, V, G, K, N>> PassOf<S, V, G, K, N, Q> {
    /// The lot in which the pass rests, the crews' from `CREWS` on.
    pub fn lot(&self) -> u32 {
        self.rest.lot
    }

    /// Lets the pass rest in this lot, modulo `CREWS`, until it is told otherwise: where the lot is roused, all passes wake
    /// that rest in it. A pass that is split off begins with the lot or crew of the pass that it was split from, and the
    /// first pass of a hub with lot 0.
    pub fn rest_in_lot(&mut self, lot: u32)
        ensures { self.new ≡ self.old }
    {
        self.rest = Rest::new(lot % CREWS);
    }

    /// Lets the pass rest in this crew, modulo `LOTS - CREWS`, until it is told otherwise: where the crew's lot, which is
    /// `CREWS` more than its number, is roused, one pass of the crew wakes, for any of them can take what is there.
    pub fn rest_in_crew(&mut self, crew: u32)
        ensures { self.new ≡ self.old }
    {
        self.rest = Rest::new(CREWS + crew % (LOTS - CREWS));
    }
}
