// The atomic steps of a hub, one function for each kind. Where a function takes a `Board` and a `Place`, the place is
// a seat at that board.
ghost use Rattle.std.specs.Prelude.{◌≡◌, ℕ, ◌+◌, ◌<◌, ◌^◌, List, [], ◌∷◌, length, MatchBool};
ghost use Rattle.turn_hub.specs.Seats.{IsSeatOf, IsStepOf, CarriesOne};
ghost use Rattle.turn_hub.specs.Kinds.{Looked, Added, Recalled};
ghost use Rattle.turn_hub.specs.Views.{taken, added, given, recalled, newcomer, joined, NoneLonger};
ghost use Rattle.turn_hub.specs.declared.view.Stowed.TheVariants.{Machine as machine_there, Out, Noted};
ghost use Rattle.turn_hub.specs.declared.view.Turn.TheVariants.{Away, Known};

use crate::rule::{Adds, Forks, Gives, Looks, Meets, Recalls, Takes, Turns};
use crate::view::{Knows, Note, Opening, Slot, Stowed};
use crate::waiting::Waiting;
use atomic_table::{Seat, Shared};
use outside::Machine;
use std::hint;
use std::sync::Wait;

pub(crate) type Board<M> = Shared<Slot<M>, Knows<M>, Opening<M>, Turns<M>>;

pub(crate) type Place<M> = Seat<Slot<M>, Knows<M>>;

// The words of the table.
pub(crate) const COUNT: usize = 0;

pub(crate) const TURN: usize = 1;

// The one slot of the table.
const MACHINE: usize = 0;

// How often a thread looks for the turn before it parks. So it waits a little longer than most steps take. It doesn't yield: where
// others keep the processors busy, a thread that yields runs again only behind them, long after the turn is free.
const TRIES: u32 = 2_000;

// Takes the turn if it is free.
fn try_turn<M: Machine>(board: &Board<M>, seat: &mut Place<M>) -> bool
    requires sits { IsSeatOf board.now seat.old }
    ensures sits { IsSeatOf board.now seat.new }
    ensures id { seat.new.id ≡ seat.old.id }
    ensures me { MatchBool result ((m : M) × (seat.new.me ≡ (taken seat.old.me.0 m, (0, machine_there m) ∷ seat.old.me.1))) (seat.new.me ≡ seat.old.me) }
{
    board.compare_exchange::<Takes>(seat, TURN, 0, 1) == 0
}

// Looks for the turn for a while, and takes it where it is free.
fn try_often<M: Machine>(board: &Board<M>, seat: &mut Place<M>) -> bool
    requires sits { IsSeatOf board.now seat.old }
    ensures sits { IsSeatOf board.now seat.new }
    ensures id { seat.new.id ≡ seat.old.id }
    ensures me { MatchBool result ((m : M) × (seat.new.me ≡ (taken seat.old.me.0 m, (0, machine_there m) ∷ seat.old.me.1))) (seat.new.me ≡ seat.old.me) }
{
    'tries: for _ in 0..TRIES {
        if board.peek(TURN) == 0 && try_turn(board, seat) {
            return true;
        }
        hint::spin_loop();
    }
    false
}

// Takes the machine out of the slot, with the turn.
fn take_out<M: Machine>(board: &Board<M>, seat: &mut Place<M>) -> M
    requires sits { IsSeatOf board.now seat.old }
    requires there { (m : M) × (seat.old.me.1 ≡ (0, machine_there m) ∷ []) }
    ensures sits { IsSeatOf board.now seat.new }
    ensures id { seat.new.id ≡ seat.old.id }
    ensures was { seat.old.me.1 ≡ (0, machine_there result) ∷ [] }
    ensures me { seat.new.me ≡ (seat.old.me.0, (0, Out) ∷ []) }
{
    match board.exchange(seat, MACHINE, Stowed::Out) {
        Stowed::Machine(machine) => machine,
        Stowed::Out | Stowed::Noted(_) => unreachable!(),
    }
}

// Takes the turn, and the machine out of its slot. A thread that does not get the turn soon parks.
pub(crate) fn take_turn<R: Wait, M: Machine>(
    rt: &R,
    board: &Board<M>,
    waiting: &Waiting,
    seat: &mut Place<M>,
) -> M
    requires sits { IsSeatOf board.now seat.old }
    requires empty { seat.old.me.1 ≡ [] }
    ensures sits { IsSeatOf board.now seat.new }
    ensures me { seat.new.me ≡ (taken seat.old.me.0 result, (0, Out) ∷ []) }
{
    if try_turn(board, seat) {
        return take_out(board, seat);
    }
    'parks: for _ in rt.forever() {
        if try_often(board, seat) {
            waiting.turn_is_had();
            return take_out(board, seat);
        }
        waiting.await_turn(rt, board);
    }
    unreachable!()
}

// Reads the count, and so sees the whole history.
pub(crate) fn look<M: Machine>(board: &Board<M>, seat: &mut Place<M>) -> u64
    requires sits { IsSeatOf board.now seat.old }
    ensures sits { IsSeatOf board.now seat.new }
    ensures carried { seat.new.me.1 ≡ seat.old.me.1 }
    ensures looked { Looked M.steps board.now.key.machine.value seat.old.me.0 result seat.new.me.0 }
{
    board.load::<Looks<M>>(seat, COUNT)
}

// Raises the count by the step of the note, with the machine out.
pub(crate) fn raise<M: Machine>(
    board: &Board<M>,
    seat: &mut Place<M>,
    note: Note<M, M::Event, M::Outcome, M::Fault>,
)
    requires sits { IsSeatOf board.now seat.old }
    requires carried { seat.old.me.1 ≡ (0, Out) ∷ [] }
    requires step { (m : M) × (seat.old.me.0.turn ≡ Known m) × IsStepOf M.steps m note }
    requires room { length seat.old.me.0.seen + seat.old.me.0.base < 2 ^ 62 }
    ensures sits { IsSeatOf board.now seat.new }
    ensures me { seat.new.me ≡ (added seat.old.me.0 note, (0, Noted note) ∷ []) }
    ensures added { Added M.steps board.now.key.machine.value seat.old.me.0 note }
{
    let _ = board.exchange(seat, MACHINE, Stowed::Noted(note));
    board.fetch_add::<Adds<M>>(seat, COUNT, 1);
}

// Puts the machine back into its slot and gives the turn back, and wakes a thread that waits for it.
pub(crate) fn give_back<M: Machine>(
    board: &Board<M>,
    waiting: &Waiting,
    seat: &mut Place<M>,
    machine: M,
)
    requires sits { IsSeatOf board.now seat.old }
    requires carried { CarriesOne seat.old.me.1 }
    requires known { seat.old.me.0.turn ≡ Known machine }
    ensures sits { IsSeatOf board.now seat.new }
    ensures me { seat.new.me ≡ (given seat.old.me.0, []) }
{
    let _ = board.exchange(seat, MACHINE, Stowed::Machine(machine));
    board.store::<Gives>(seat, TURN, 0);
    waiting.turn_is_free();
}

// Reads the count, and sees no more than before. It tells that the histories named before begin what was seen.
pub(crate) fn recall<M: Machine>(board: &Board<M>, seat: &mut Place<M>)
    requires sits { IsSeatOf board.now seat.old }
    requires told { NoneLonger seat.old.me.0.told seat.old.me.0.seen }
    ensures sits { IsSeatOf board.now seat.new }
    ensures me { seat.new.me ≡ (recalled seat.old.me.0, seat.old.me.1) }
    ensures told { Recalled seat.old.me.0 }
{
    board.load::<Recalls>(seat, COUNT);
}

// Splits a seat. The new one has seen as much, and has no entries.
pub(crate) fn split_seat<M: Machine>(board: &Board<M>, seat: &mut Place<M>) -> Place<M>
    requires sits { IsSeatOf board.now seat.old }
    ensures sits { IsSeatOf board.now seat.new }
    ensures same { seat.new.me ≡ seat.old.me }
    ensures new { IsSeatOf board.now result }
    ensures newcomer { result.me ≡ (newcomer seat.old.me.0, []) }
{
    board.split_seat::<Forks>(seat)
}

// Makes two seats one.
pub(crate) fn join_seat<M: Machine>(board: &Board<M>, seat: &mut Place<M>, other: Place<M>)
    requires sits { IsSeatOf board.now seat.old }
    requires away { seat.old.me.0.turn ≡ Away }
    requires other { IsSeatOf board.now other }
    requires carried { other.me.1 ≡ [] }
    ensures sits { IsSeatOf board.now seat.new }
    ensures joined { seat.new.me ≡ (joined seat.old.me.0 other.me.0, seat.old.me.1) }
{
    board.join_seat::<Meets>(seat, other);
}
