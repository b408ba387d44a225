// What the seats at a hub's table know, and what lies in its one slot.
use crate::history::Entry;
use outside::Machine;
use std::collections::LinkedList;
use std::snapshot::Snapshot;

/// What a hub's table was told when it was made: the machine's opening state, which clauses see as the `value` of
/// `machine`, and how many steps count as made before.
#[derive(Drop)]
pub struct Opening<M> {
    pub machine: Snapshot<M>,
    pub base: u64,
}

// Whether a seat has the turn, and then which machine it has. It is `Known` once the count was read since.
pub enum Turn<M> {
    Away,
    Taken(M),
    Known(M),
}

// What a seat knows. No value of it is made. `told` are histories of which the next load tells that they begin what
// was seen.
pub struct View<M, E, O, F> {
    pub opening: Option<M>,
    pub base: u64,
    pub seen: LinkedList<Entry<E, O, F>>,
    pub told: LinkedList<LinkedList<Entry<E, O, F>>>,
    pub own: LinkedList<u64>,
    pub turn: Turn<M>,
}

// What the machine did while it was out. It takes the reading's bytes alone.
#[derive(Drop)]
pub struct Note<M, E, O, F> {
    pub machine: Snapshot<M>,
    pub event: Snapshot<E>,
    pub now: u64,
    pub answer: Snapshot<Result<O, F>>,
}

// What lies in the slot.
#[derive(Drop)]
pub enum Stowed<M, E, O, F> {
    Machine(M),
    Out,
    Noted(Note<M, E, O, F>),
}

pub type Slot<M> = Stowed<M, <M as Machine>::Event, <M as Machine>::Outcome, <M as Machine>::Fault>;

pub type Knows<M> = View<M, <M as Machine>::Event, <M as Machine>::Outcome, <M as Machine>::Fault>;
