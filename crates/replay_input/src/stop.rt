ghost use Rattle.std.specs.Prelude.{◌≡◌};
ghost use Rattle.replay_input.specs.declared.stop.Stop.TheVariants as stop;

use etcd_types::NoMemory;
use std::alloc::AllocError;

/// What stops a replay before its script ends or a line is refused.
#[derive(Clone, Copy, Debug, PartialEq, Eq)]
pub enum Stop {
    /// The input failed.
    ReadFault,
    /// The output failed.
    WriteFault,
    NoMemory,
}

impl From<NoMemory> for Stop {
    ghost from_gives = { λ _ e. e ≡ stop.NoMemory };

    fn from(_e: NoMemory) -> Stop {
        Stop::NoMemory
    }
}

impl From<AllocError> for Stop {
    ghost from_gives = { λ _ e. e ≡ stop.NoMemory };

    fn from(_e: AllocError) -> Stop {
        Stop::NoMemory
    }
}
