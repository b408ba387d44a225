ghost use Rattle.std.specs.Prelude.{◌≡◌};
ghost use Rattle.watch_merge.specs.declared.fault.WatchFault.TheVariants.{NoMemory as Wanting};

use etcd_types::NoMemory;
use thiserror::Error;

/// Why a call on watches was refused.
#[derive(Clone, Copy, Debug, PartialEq, Eq, Error)]
pub enum WatchFault {
    /// The watch with this ticket isn't known.
    #[error("no watch {0}")]
    NoSuchWatch(u64),
    /// The stream with this number isn't known.
    #[error("no stream {0}")]
    NoSuchStream(u64),
    #[error("no memory")]
    NoMemory,
}

impl From<NoMemory> for WatchFault {
    ghost from_gives = { λ _ e. e ≡ Wanting };

    fn from(_e: NoMemory) -> WatchFault {
        WatchFault::NoMemory
    }
}
