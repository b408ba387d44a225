ghost use Rattle.std.specs.Prelude.{IfOk};
ghost use Rattle.shop_model.specs.Shop.{first_shop};
ghost use Rattle.store_machine.specs.Holding.{Timed};

use crate::followers::Followers;
use crate::kept::Kept;
use etcd_types::NoMemory;
use outside::{Machine, Roused};
use shop_model::{StoreEvent, StoreOutcome, StoreStepFault};
use std::alloc::Global;

/// A store of one member whose leases expire by the clock of its steps.
///
/// A step first lets the leases expire whose deadline has come, by rising numbers, and the member apply the newest revision. Then it
/// executes a request, opens a watch or pushes a watch's next message. `Worn` comes before all that, where there are together 2^62
/// revisions and leases or more; `NoSuchWatch` where no watch of the number was opened, and `Nothing` where the watch has nothing to
/// tell. Where memory was wanting, some of the leases that are due have expired, the lowest numbers first.
#[derive(Drop)]
pub struct StoreMachine {
    /// Behind a box, since a hub moves its machine in and out at each step.
    kept: Box<Kept>,
    followers: Box<Followers>,
    ghost timed: { ∥ Timed kept.value ∥₁ },
}

impl StoreMachine {
    ghost use Rattle.store_machine.specs.Standing.{Stands};

    /// A store with nothing in it.
    pub fn new(alloc: Global) -> Result<StoreMachine, NoMemory>
        ensures { IfOk result (λ machine. Stands machine first_shop) }
    {
        let kept = Kept::new(alloc)?;
        let kept = Box::new(alloc, kept)?;
        let followers = Box::new(alloc, Followers::new(alloc))?;
        Ok(StoreMachine { kept, followers })
    }
}

impl Machine for StoreMachine {
    type Event = StoreEvent;

    type Outcome = StoreOutcome;

    type Fault = StoreStepFault;

    ghost use Rattle.shop_model.specs.Steps.{May};
    ghost use Rattle.store_machine.specs.Standing.{Steps};

    ghost may = { May };

    ghost steps = { Steps };

    fn step(&mut self, event: StoreEvent, now: u64) -> Result<StoreOutcome, StoreStepFault> {
        let expiring = self.kept.has_due(now);
        let answer = self.kept.step(&event, now);
        self.followers
            .note(&self.kept.store, &event, now, &answer, expiring);
        answer
    }

    fn rouses(&self) -> Roused {
        self.followers.roused()
    }

    fn roused(&self, word: u32) -> u64 {
        self.followers.word(word)
    }
}
