ghost use Rattle.std.specs.Prelude.{◌≡◌, IsTrue};
ghost use Rattle.server_model.specs.Ticking.{OneTick, Ticking};

use core_model::CoreEvent;
use outside::{Clock, Draw};
use proxy_server::Turn;
use server_model::TurnFault;
use std::sync::Wait;

/// The ticker rests so many milliseconds between two ticks.
pub const TICK_MS: u64 = 500;

/// Makes one step on Tick, with one drawn word. It fails where the turn or its core makes no more steps, and for nothing else.
pub fn tick<T: Turn, C: Clock, D: Draw>(
    turn: &mut T,
    clock: &mut C,
    draw: &mut D,
) -> Result<(), TurnFault>
    ensures home { T.home turn.new ≡ T.home turn.old }
    ensures allowed { T.allowed turn.old → T.allowed turn.new }
    ensures ticked { OneTick (IsTrue (T.worn turn.new)) (T.made turn.old) (T.made turn.new)
        (D.given draw.old) (D.given draw.new) result }
{
    let drawn = draw.word();
    let fault = match turn.turn(CoreEvent::Tick { word: drawn }, clock) {
        Ok(_) => return Ok(()),
        Err(fault) => fault,
    };
    Err(fault)
}

/// Ticks again and again, until no further step can be made.
pub fn keep_ticking<R: Wait, T: Turn, C: Clock, D: Draw>(
    rt: &R,
    turn: &mut T,
    clock: &mut C,
    draw: &mut D,
)
    ensures home { T.home turn.new ≡ T.home turn.old }
    ensures allowed { T.allowed turn.old → T.allowed turn.new }
    ensures ticking { Ticking (IsTrue (T.worn turn.new)) (T.made turn.old) (T.made turn.new)
        (D.given draw.old) (D.given draw.new) }
{
    'ticks: for _ in rt.forever() {
        match tick(turn, clock, draw) {
            Ok(()) => {}
            Err(_) => return,
        }
        clock.pause(TICK_MS);
    }
    unreachable!()
}
