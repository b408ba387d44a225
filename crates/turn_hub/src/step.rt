// A step of the machine, and the end of a hub, as a seat makes them.
ghost use Rattle.std.specs.Prelude.{◌≡◌, ◌+◌, ◌≤◌, ◌^◌, Ok, IfOk, IfErr, length};
ghost use Rattle.std.specs.Fn.{FnOnceReturnsAt};
ghost use Rattle.turn_hub.specs.History.{Begins, Runs};
ghost use Rattle.turn_hub.specs.Seats.{IsSeatOf};
ghost use Rattle.turn_hub.specs.Passes.{AtRest, known_of};
ghost use Rattle.turn_hub.specs.Steps.{Makes, Fails, Sees, IsWorn};

use crate::fault::HubFault;
use crate::turn::{Board, Place, give_back, look, raise, take_turn};
use crate::view::Note;
use crate::waiting::{Call, Rest, Waiting};
use outside::{Clock, Machine};
use std::snapshot::Snapshot;
use std::sync::Wait;

// The most steps that a hub counts, its opening count included.
const MOST: u64 = 1 << 62;

// Makes one step with the turn, and rouses whom it gave something to take.
pub(crate) fn step_as<R: Wait, M: Machine, C: Clock>(
    rt: &R,
    board: &Board<M>,
    waiting: &Waiting,
    seat: &mut Place<M>,
    rest: &mut Rest,
    event: M::Event,
    clock: &mut C,
) -> Result<M::Outcome, HubFault<M::Fault>>
    requires sits { IsSeatOf board.now seat.old }
    requires rests { AtRest board.now.key seat.old.me }
    requires event { M.may event }
    ensures place { seat.new.table_id ≡ seat.old.table_id }
    ensures rests { AtRest board.now.key seat.new.me }
    ensures outcome { IfOk result (λ o. Makes M.steps
        (known_of board.now.table_id board.now.key seat.old.me.0)
        (known_of board.now.table_id board.now.key seat.new.me.0) event (C.last clock.new) (Ok o)) }
    ensures fault { IfErr result (λ f. Fails M.steps
        (known_of board.now.table_id board.now.key seat.old.me.0)
        (known_of board.now.table_id board.now.key seat.new.me.0) event (C.last clock.new) f) }
    ensures unread { IfErr result (λ f. IsWorn f → clock.new ≡ clock.old) }
{
    let mut machine = take_turn(rt, board, waiting, seat);
    if look(board, seat) >= MOST {
        give_back(board, waiting, seat, machine);
        return Err(HubFault::Worn);
    }
    waiting.glance(rest);
    let now = clock.now();
    let asked = Snapshot::of(&event);
    let answer = machine.step(event, now);
    let note = Note {
        machine: Snapshot::of(&machine),
        event: asked,
        now,
        answer: Snapshot::of(&answer),
    };
    raise(board, seat, note);
    let call = Call::of(&machine);
    give_back(board, waiting, seat, machine);
    waiting.rouse(&call);
    match answer {
        Ok(outcome) => Ok(outcome),
        Err(fault) => Err(HubFault::Machine(fault)),
    }
}

// Lets the machine be looked at with the turn, as the whole history has left it.
pub(crate) fn look_as<R: Wait, M: Machine, T, F: FnOnce(&M) -> T>(
    rt: &R,
    board: &Board<M>,
    waiting: &Waiting,
    seat: &mut Place<M>,
    view: F,
) -> T
    requires sits { IsSeatOf board.now seat.old }
    requires rests { AtRest board.now.key seat.old.me }
    requires view { F.IsAlwaysCallable view }
    ensures place { seat.new.table_id ≡ seat.old.table_id }
    ensures rests { AtRest board.now.key seat.new.me }
    ensures looked { (machine : M)
        × Sees M.steps (known_of board.now.table_id board.now.key seat.old.me.0)
        (known_of board.now.table_id board.now.key seat.new.me.0) machine
        × FnOnceReturnsAt F.FnOnce view machine result }
{
    let machine = take_turn(rt, board, waiting, seat);
    look(board, seat);
    let told = view(&machine);
    give_back(board, waiting, seat, machine);
    told
}

// Takes the turn for good, and the machine out, and answers the count too. Looking before the turn was taken would miss
// the steps that others make until then.
pub(crate) fn last_as<R: Wait, M: Machine>(
    rt: &R,
    board: &Board<M>,
    waiting: &Waiting,
    seat: &mut Place<M>,
) -> (M, u64)
    requires sits { IsSeatOf board.now seat.old }
    requires rests { AtRest board.now.key seat.old.me }
    ensures begins { Begins seat.old.me.0.seen seat.new.me.0.seen }
    ensures runs { Runs M.steps board.now.key.machine.value seat.new.me.0.seen result.0 }
    ensures count { length seat.new.me.0.seen + board.now.key.base ≡ result.1 }
    ensures room { result.1 ≤ 2 ^ 62 }
{
    let machine = take_turn(rt, board, waiting, seat);
    let count = look(board, seat);
    (machine, count)
}
