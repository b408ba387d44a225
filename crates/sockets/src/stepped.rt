ghost use Rattle.std.specs.Prelude.{◌≡◌};

use crate::tally::Tally;
use outside::Clock;
use std::alloc::Global;
use std::sync::Arc;

/// The clock of one part. Where what its connection does is counted, each reading counts as a step of the machine: a step reads it once.
#[derive(Drop)]
pub struct SteppedClock<C: Drop> {
    clock: C,
    tally: Option<Arc<Tally, Global>>,
}

impl<C: Drop> SteppedClock<C> {
    /// This clock, whose readings are counted there, where they are to be.
    pub fn new(clock: C, tally: Option<Arc<Tally, Global>>) -> SteppedClock<C> {
        SteppedClock { clock, tally }
    }

    /// Where its readings are counted, where they are.
    pub fn tally(&self) -> Option<&Arc<Tally, Global>> {
        self.tally.as_ref()
    }
}

impl<C: Clock + Drop> Clock for SteppedClock<C> {
    ghost last = { λ c. C.last c.clock };

    fn now(&mut self) -> u64 {
        if let Some(tally) = &self.tally {
            tally.stepped();
        }
        self.clock.now()
    }

    fn pause(&mut self, millis: u64) {
        self.clock.pause(millis);
    }
}
