ghost use Rattle.std.specs.Prelude.{◌≡◌, true, [], Some};
ghost use Rattle.server_model.specs.Steps.{MadeBy, Fits};
ghost use Rattle.serve_trial.specs.Alone.{told, IsWork};

use crate::small::Core;
use core_model::{CoreEvent, Outcome, StepFault};
use outside::{Clock, Machine};
use proxy_server::Turn;
use server_model::TurnFault;
use std::alloc::Global;
use std::snapshot::Snapshot;

// A step that was made. It takes the reading's bytes alone.
#[derive(Drop)]
pub struct Noted {
    event: Snapshot<CoreEvent>,
    now: u64,
    answer: Snapshot<Result<Outcome, StepFault>>,
}

/// A core that nobody else steps, and its steps.
#[derive(Drop)]
pub struct Alone {
    core: Core,
    steps: Vec<Noted>,
    tells: bool,
}

impl Alone {
    /// Over a small core where the tickets up to some number are in use.
    pub fn new(alloc: Global, used: u64) -> Alone
        ensures { told result ≡ Some [] }
    {
        Alone {
            core: Core::new(alloc, used),
            steps: Vec::new(alloc),
            tells: true,
        }
    }

    // Makes a step, and notes it for as long as there is memory.
    fn step<C: Clock>(&mut self, event: CoreEvent, clock: &mut C) -> Result<Outcome, TurnFault>
        ensures made { MadeBy (told self.old) (told self.new) event (C.last clock.new) result }
        ensures fits { Fits event result }
    {
        let now = clock.now();
        let asked = Snapshot::of(&event);
        let answer = self.core.step(event, now);
        let noted = Noted {
            event: asked,
            now,
            answer: Snapshot::of(&answer),
        };
        if self.steps.push(noted).is_err() {
            self.tells = false;
        }
        match answer {
            Ok(outcome) => Ok(outcome),
            Err(fault) => Err(TurnFault::Core(fault)),
        }
    }
}

impl Turn for Alone {
    type Home = ();

    ghost home = { λ a. tt };

    ghost made = { told };

    ghost rests = { IsWork };

    // it doesn't tell whether more steps are made
    ghost worn = { λ a. true };

    ghost allowed = { λ a. Unit {0} };

    fn turn<C: Clock>(&mut self, event: CoreEvent, clock: &mut C) -> Result<Outcome, TurnFault> {
        self.step(event, clock)
    }

    #[tactic(auto, using(crate::proofs::Fitting::rest_fault))]
    fn rest<C: Clock>(&mut self, clock: &mut C) -> Result<(), TurnFault> {
        match self.step(CoreEvent::Work, clock) {
            Ok(_) => Ok(()),
            Err(fault) => Err(fault),
        }
    }
}
