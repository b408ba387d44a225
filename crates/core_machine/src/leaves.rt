ghost use Rattle.std.specs.Prelude.{◌≡◌, ◌≢◌, Some, None, Err};
ghost use Rattle.watch_model.specs.Lookups.{watch_at};
ghost use Rattle.core_model.specs.declared.event.StepFault.TheVariants.{NoMemory as Wanting};
ghost use Rattle.core_model.specs.Lookups.{reads_of};
ghost use Rattle.core_model.specs.Takes.{has_left, on_leave, watcher_left};
ghost use Rattle.read_steps.specs.Steps.{FitTogether};
ghost use Rattle.core_machine.specs.Does.{Does};
ghost use Rattle.core_machine.specs.Keeping.{on};

use crate::machine::Machine;
use core_model::{Outcome, StepFault};

impl Machine {
    /// A client went away, and with it its request or its watch. It takes no memory.
    #[tactic(auto, unfolding(core_model::specs::Takes::on_leave))]
    #[inline(never)]
    pub fn on_leave(&mut self, ticket: u64, now: u64) -> Result<Outcome, StepFault>
        requires { FitTogether (reads_of self.old.core) }
        ensures step { Does self.old.core (on_leave now ticket self.old.core) result self.new.core }
        ensures memory { result ≢ Err Wanting }
        ensures ranges { self.new.ranges ≡ self.old.ranges }
    {
        match self.reads.find(ticket) {
            Some(_) => {
                self.forget(ticket, now);
                self.go_on();
                Ok(Outcome::Noted)
            }
            None => self.leave_watch(ticket),
        }
    }

    fn forget(&mut self, ticket: u64, now: u64)
        requires { FitTogether (reads_of self.old.core) }
        ensures { self.new ≡ on self.old (has_left now ticket self.old.core) }
    {
        let moment = self.moment(now);
        self.reads.leave(&moment, ticket);
    }

    fn leave_watch(&mut self, ticket: u64) -> Result<Outcome, StepFault>
        ensures step { Does self.old.core (watcher_left ticket (watch_at ticket self.old.core.watches.watches) self.old.core) result self.new.core }
        ensures memory { result ≢ Err Wanting }
        ensures ranges { self.new.ranges ≡ self.old.ranges }
    {
        if self.watches.remove(ticket) {
            Ok(Outcome::Noted)
        } else {
            Err(StepFault::NoSuchTicket(ticket))
        }
    }
}
