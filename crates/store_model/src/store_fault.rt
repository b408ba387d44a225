use etcd_types::NoMemory;
use thiserror::Error;

/// Why a step of the store that is no request was not taken. The store is then as before.
#[derive(Clone, Copy, Debug, PartialEq, Eq, Error)]
pub enum StoreFault {
    /// There is no lease of this number.
    #[error("no lease {0}")]
    NoSuchLease(u64),
    /// A member can apply no revision below the one that it has applied, and none above the newest.
    #[error("applied is {applied} and the newest revision {newest}")]
    BadApply { applied: u64, newest: u64 },
    /// There is no member of this number.
    #[error("no member {0}")]
    NoSuchMember(u32),
    /// No watch of this number was opened.
    #[error("no watch {0}")]
    NoSuchWatch(u64),
    /// The watch is not behind a compaction, and there is no event for it.
    #[error("nothing to push for watch {0}")]
    NothingToPush(u64),
    /// The watch did not ask for messages on its progress.
    #[error("watch {0} asked for no progress")]
    NotAsked(u64),
    /// The watch has something to push first. `next` is the revision that it waits for, or 0 before its created message.
    #[error("watch at {next} is not synced with {newest}")]
    NotSynced { next: u64, newest: u64 },
    #[error("no memory")]
    NoMemory,
}

impl From<NoMemory> for StoreFault {
    ghost use Rattle.std.specs.Prelude.{◌≡◌};
    ghost use Rattle.store_model.specs.declared.store_fault.StoreFault.TheVariants as fault;

    ghost from_gives = { λ _ e. e ≡ fault.NoMemory };

    fn from(_e: NoMemory) -> StoreFault {
        StoreFault::NoMemory
    }
}
