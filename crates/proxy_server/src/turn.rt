ghost use Rattle.std.specs.Prelude.{◌≡◌, Bool, List, Option, IfErr, IsTrue};
ghost use Rattle.core_model.specs.declared.event.CoreEvent.{CoreEvent};
ghost use Rattle.server_model.specs.Steps.{Step, MadeBy, Rested, Fits, IsOfRest, is_late};
ghost use Rattle.server_model.specs.declared.fault.TurnFault.TheVariants.{Worn};

use core_model::{CoreEvent, Outcome};
use outside::Clock;
use server_model::TurnFault;

/// What stands behind a connection: a machine that is stepped, by this connection and maybe by others.
pub trait Turn {
    /// What stays the same of it, whatever steps are made.
    type Home;

    // what stays the same: for a pass, its hub
    ghost home: { Self → Self.Home };

    // the steps that it made, in order, for as long as it tells them
    ghost made: { Self → Option (List Step) };

    // which events a rest may step on
    ghost rests: { CoreEvent → Type 0 };

    // whether no more steps are made, for good: for a pass, that its hub has made its last one
    ghost worn: { Self → Bool };

    // that its steps so far are ones that its machine makes: for a pass, that its history is one that the core allows
    ghost allowed: { Self → Type 0 };

    /// Makes one step.
    fn turn<C: Clock>(&mut self, event: CoreEvent, clock: &mut C) -> Result<Outcome, TurnFault>
        ensures made { MadeBy (made self.old) (made self.new) event (C.last clock.new) result }
        ensures fits { Fits event result }
        ensures worn { IfErr result (λ why. why ≡ Worn → IsTrue (worn self.new)) }
        ensures late { IsTrue (worn self.old) → IsTrue (worn self.new) }
        ensures allowed { allowed self.old → allowed self.new }
        ensures home { home self.new ≡ home self.old };

    /// Rests until there may be something to take. It may also return at any other time, and may make steps of its own. It is to
    /// be called right after a step, with no other between, so that no wake-up is missed: also a step that took something wakes
    /// its own turn where more stands there.
    fn rest<C: Clock>(&mut self, clock: &mut C) -> Result<(), TurnFault>
        ensures made { Rested rests (made self.old) (made self.new) }
        ensures fault { IfErr result IsOfRest }
        ensures worn { IfErr result (λ why. IsTrue (is_late why) → IsTrue (worn self.new)) }
        ensures late { IsTrue (worn self.old) → IsTrue (worn self.new) }
        ensures allowed { allowed self.old → allowed self.new }
        ensures home { home self.new ≡ home self.old };
}
