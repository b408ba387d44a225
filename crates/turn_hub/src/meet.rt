// How two seats come together.
ghost use Rattle.std.specs.Prelude.{◌≡◌, ◌++◌};
ghost use Rattle.turn_hub.specs.History.{Begins, entries_at};
ghost use Rattle.turn_hub.specs.Views.{longer};
ghost use Rattle.turn_hub.specs.Seats.{IsSeatOf};
ghost use Rattle.turn_hub.specs.Passes.{AtRest, known_of};
ghost use Rattle.turn_hub.specs.Steps.{IsAllowed};

use crate::turn::{Board, Place, join_seat, look, recall, split_seat};
use outside::Machine;

// Makes two seats one, which has seen the longer history.
pub(crate) fn join_as<M: Machine>(board: &Board<M>, seat: &mut Place<M>, other: Place<M>)
    requires sits { IsSeatOf board.now seat.old }
    requires rests { AtRest board.now.key seat.old.me }
    requires other { IsSeatOf board.now other }
    requires other_rests { AtRest board.now.key other.me }
    ensures place { seat.new.table_id ≡ seat.old.table_id }
    ensures rests { AtRest board.now.key seat.new.me }
    ensures seen { seat.new.me.0.seen ≡ longer seat.old.me.0.seen other.me.0.seen }
    ensures begins { Begins seat.old.me.0.seen seat.new.me.0.seen × Begins other.me.0.seen seat.new.me.0.seen }
    ensures own { seat.new.me.0.own ≡ seat.old.me.0.own ++ other.me.0.own }
    ensures made { entries_at seat.new.me.0.seen seat.new.me.0.own ≡ entries_at seat.old.me.0.seen seat.old.me.0.own ++ entries_at other.me.0.seen other.me.0.own }
{
    join_seat(board, seat, other);
    recall(board, seat);
}

// Tells the seat the whole history, which begins with what the other one has seen.
pub(crate) fn meet_as<M: Machine>(board: &Board<M>, seat: &mut Place<M>, other: &mut Place<M>)
    requires sits { IsSeatOf board.now seat.old }
    requires rests { AtRest board.now.key seat.old.me }
    requires other { IsSeatOf board.now other.old }
    requires other_rests { AtRest board.now.key other.old.me }
    ensures place { seat.new.table_id ≡ seat.old.table_id }
    ensures rests { AtRest board.now.key seat.new.me }
    ensures other { (other.new.table_id ≡ other.old.table_id) × (other.new.me ≡ other.old.me) }
    ensures begins { Begins seat.old.me.0.seen seat.new.me.0.seen × Begins other.old.me.0.seen seat.new.me.0.seen }
    ensures own { seat.new.me.0.own ≡ seat.old.me.0.own }
    ensures made { entries_at seat.new.me.0.seen seat.new.me.0.own ≡ entries_at seat.old.me.0.seen seat.old.me.0.own }
    ensures allowed { IsAllowed M.steps (known_of board.now.table_id board.now.key seat.new.me.0) }
{
    let copy = split_seat(board, other);
    join_seat(board, seat, copy);
    look(board, seat);
}
