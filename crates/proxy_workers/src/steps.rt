ghost use Rattle.std.specs.Prelude.{IsTrue};
ghost use Rattle.server_model.specs.Working.{IsFed, IsReported};
ghost use Rattle.proxy_server.specs.Stays.{Stays};

use core_model::CoreEvent;
use etcd_types::Answer;
use outside::Clock;
use proxy_server::Turn;
use server_model::WorkEnd;

/// Steps on an event, whatever it gives. The end is the one named, unless the turn makes no more steps.
pub(crate) fn feed<T: Turn, C: Clock>(
    turn: &mut T,
    clock: &mut C,
    event: CoreEvent,
    end: Option<WorkEnd>,
) -> Option<WorkEnd>
    ensures stays { Stays T.home T.worn T.allowed turn.old turn.new }
    ensures fed { IsFed (IsTrue (T.worn turn.new)) event end
        (T.made turn.old) (T.made turn.new) result }
{
    let fault = match turn.turn(event, clock) {
        Ok(_) => return end,
        Err(fault) => fault,
    };
    if fault.is_worn() {
        Some(WorkEnd::Worn)
    } else {
        end
    }
}

/// Feeds the answer to a call, which counts as lost where the core has no room for it.
pub(crate) fn report<T: Turn, C: Clock>(
    turn: &mut T,
    clock: &mut C,
    call: u64,
    answer: Answer,
) -> Option<WorkEnd>
    ensures stays { Stays T.home T.worn T.allowed turn.old turn.new }
    ensures reports { IsReported (IsTrue (T.worn turn.new)) call answer
        (T.made turn.old) (T.made turn.new) result }
{
    let fault = match turn.turn(CoreEvent::Answer { call, answer }, clock) {
        Ok(_) => return None,
        Err(fault) => fault,
    };
    if fault.is_worn() {
        Some(WorkEnd::Worn)
    } else if fault.is_for_memory() {
        feed(
            turn,
            clock,
            CoreEvent::Lost { call },
            Some(WorkEnd::NoMemory),
        )
    } else {
        None
    }
}
