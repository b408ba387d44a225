ghost use Rattle.std.specs.Prelude.{◌≡◌, ◌≢◌, ◌<◌, ◌^◌, Some, None, Err};
ghost use Rattle.watch_model.specs.Lookups.{stream_at};
ghost use Rattle.watch_model.specs.State.{Stream};
ghost use Rattle.core_model.specs.declared.event.StepFault.TheVariants.{NoMemory as Wanting};
ghost use Rattle.core_model.specs.LeasingStream.{leasing_cut};
ghost use Rattle.core_model.specs.State.{Opening};
ghost use Rattle.core_model.specs.Step.{on_cut, client_cut};
ghost use Rattle.core_machine.specs.Does.{Does};
ghost use Rattle.core_machine.specs.Keeping.{on};

use crate::machine::Machine;
use core_model::{Outcome, StepFault};
use core_parts::{cut_opening, opening_at};

impl Machine {
    /// A stream was cut: it is to be opened again from its next revision on. It takes no memory.
    #[tactic(auto, unfolding(core_model::specs::Step::on_cut))]
    #[inline(never)]
    pub fn on_cut(&mut self, stream: u64) -> Result<Outcome, StepFault>
        requires { self.old.core.watches.given < 2 ^ 63 }
        ensures step { Does self.old.core (on_cut stream self.old.core) result self.new.core }
        ensures memory { result ≢ Err Wanting }
        ensures ranges { self.new.ranges ≡ self.old.ranges }
    {
        match opening_at(stream, &self.leasing) {
            Some(_) => {
                self.cut_leasing();
                Ok(Outcome::Noted)
            }
            None => self.cut_client(stream),
        }
    }

    /// The leasing stream broke off, and goes on under a new number. It takes no memory.
    pub fn cut_leasing(&mut self)
        requires { self.old.core.watches.given < 2 ^ 63 }
        ensures { (o : Opening) → self.old.core.leasing ≡ Some o → self.new ≡ on self.old (leasing_cut o self.old.core) }
    {
        let number = self.watches.take_number();
        let step = self.reads.step();
        cut_opening(&mut self.leasing, number, step);
    }

    fn cut_client(&mut self, stream: u64) -> Result<Outcome, StepFault>
        requires { self.old.core.watches.given < 2 ^ 63 }
        ensures step { Does self.old.core (client_cut stream (stream_at stream self.old.core.watches.streams) self.old.core) result self.new.core }
        ensures memory { result ≢ Err Wanting }
        ensures ranges { self.new.ranges ≡ self.old.ranges }
    {
        match self.watches.phase(stream) {
            Some(_) => {
                self.watches.cut(stream);
                Ok(Outcome::Noted)
            }
            None => Err(StepFault::NoSuchStream(stream)),
        }
    }
}
