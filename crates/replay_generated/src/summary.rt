ghost use Rattle.replay_generated.specs.Made.{IsOf, Tells};
ghost use Rattle.world_model.specs.Generated.{Making as Model};

use crate::making::Making;
use core_face::ProxyCore;

/// What is told of a generated script.
#[derive(Clone, Copy, Debug, PartialEq, Eq)]
pub struct Summary {
    /// How much was asked.
    pub asked: u64,
    pub replied: u64,
    /// How many replies to plain reads have no call that names them.
    pub unsent: u64,
    /// The store's newest revision at the end, from 1.
    pub revision: u64,
}

impl<C: ProxyCore> Making<C> {
    pub fn summary(&self) -> Summary
        ensures { (m : Model) → IsOf self.now m → Tells result m }
    {
        Summary {
            asked: self.tally.asked,
            replied: self.tally.replies.len() as u64,
            unsent: self.tally.unsent(),
            revision: self.world.newest(),
        }
    }
}
