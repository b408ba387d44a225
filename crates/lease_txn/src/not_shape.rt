ghost use Rattle.std.specs.Prelude.{◌≡◌};
ghost use Rattle.lease_txn.specs.declared.not_shape.NotShape.TheVariants.{NoMemory as NoMemoryLeft};

use etcd_types::NoMemory;
use thiserror::Error;

/// Why a reader read nothing.
#[derive(Clone, Copy, Debug, PartialEq, Eq, Error)]
pub enum NotShape {
    /// The reply is none that the transaction can have, so the call counts as lost.
    #[error("not a reply to this transaction")]
    Shape,
    #[error("no memory")]
    NoMemory,
}

impl From<NoMemory> for NotShape {
    ghost from_gives = { λ _ e. e ≡ NoMemoryLeft };

    fn from(_e: NoMemory) -> NotShape {
        NotShape::NoMemory
    }
}
