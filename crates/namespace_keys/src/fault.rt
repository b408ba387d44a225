use etcd_types::{Bytes, NoMemory};
use thiserror::Error;

/// Why a reply or a message of a watch could not be unwrapped.
#[derive(Debug, PartialEq, Eq, Drop, Error)]
pub enum KeyFault {
    /// This key, the first such one in order, lacks the namespace's prefix. It is given as it came.
    #[error("a key lacks the namespace's prefix")]
    ForeignKey(Bytes),
    #[error("no memory")]
    NoMemory,
}

impl From<NoMemory> for KeyFault {
    ghost use Rattle.std.specs.Prelude.{◌≡◌};
    ghost use Rattle.namespace_keys.specs.declared.fault.KeyFault.TheVariants as fault;

    ghost from_gives = { λ _ e. e ≡ fault.NoMemory };

    fn from(_e: NoMemory) -> KeyFault {
        KeyFault::NoMemory
    }
}
