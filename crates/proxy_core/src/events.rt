ghost use Rattle.std.specs.Prelude.{◌≡◌, ◌≢◌, true, Err, IsOk};
ghost use Rattle.core_face.specs.Steps.{Steps, takes_no_memory};
ghost use Rattle.core_laws.specs.Steps.Kept.{IsHeard};
ghost use Rattle.core_model.specs.declared.event.StepFault.TheVariants.{NoMemory as Wanting};
ghost use Rattle.core_model.specs.Step.{happened};
ghost use Rattle.core_machine.specs.Does.{Does};
ghost use Rattle.core_machine.specs.Keeping.{IsKept};
ghost use Rattle.proxy_core.specs.Happening.{IsReady, RangesAfter};

use crate::asking::on_ask;
use crate::work::on_work;
use core_machine::Machine;
use core_model::{CoreEvent, Outcome, StepFault};

/// One step: the clock work, and then what the event does.
pub(crate) fn step(machine: &mut Machine, event: CoreEvent, now: u64) -> Result<Outcome, StepFault>
    requires { IsKept machine.old }
    ensures step { Steps machine.old.core event now machine.new.core result }
    ensures memory { takes_no_memory event ≡ true → result ≢ Err Wanting }
    ensures kept { IsKept machine.new }
{
    if machine.is_worn() {
        return Err(StepFault::Worn);
    }
    machine.work_clock(now);
    match happen(machine, event, now) {
        Ok(outcome) => {
            machine.count();
            Ok(outcome)
        }
        Err(fault) => Err(fault),
    }
}

/// What the event does, once the clock work was done.
fn happen(machine: &mut Machine, event: CoreEvent, now: u64) -> Result<Outcome, StepFault>
    requires { IsReady machine.old }
    ensures step { Does machine.old.core (happened now event machine.old.core) result machine.new.core }
    ensures memory { takes_no_memory event ≡ true → result ≢ Err Wanting }
    ensures heard { IsOk result → IsHeard machine.old.core event }
    ensures ranges { RangesAfter event machine.old machine.new }
{
    match event {
        CoreEvent::Ask {
            ticket,
            request,
            word,
        } => on_ask(machine, ticket, request, word, now),
        CoreEvent::Answer { call, answer } => machine.on_answer(call, answer, now),
        CoreEvent::Lost { call } => machine.on_lost(call, now),
        CoreEvent::Tick { word } => {
            machine.on_tick(word, now);
            Ok(Outcome::Noted)
        }
        CoreEvent::Item { stream, item } => machine.on_item(stream, item, now),
        CoreEvent::Cut { stream } => machine.on_cut(stream),
        CoreEvent::Take { ticket } => machine.on_take(ticket),
        CoreEvent::Leave { ticket } => machine.on_leave(ticket, now),
        CoreEvent::Work => on_work(machine, now),
    }
}
