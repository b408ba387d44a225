ghost use Rattle.std.specs.Prelude.{◌≡◌};
ghost use Rattle.audit_input.specs.declared.refused.NotTaken.TheVariants.{NoMemory};

use audit_model::AuditRefusal;
use etcd_types::NoMemory;

/// Why a line of a transcript wasn't taken.
#[derive(Clone, Copy, Debug, PartialEq, Eq)]
pub(crate) enum NotTaken {
    /// It is refused.
    Refused(AuditRefusal),
    /// Memory was wanting, which is no fault of the line.
    NoMemory,
}

impl From<NoMemory> for NotTaken {
    ghost from_gives = { λ _ e. e ≡ NoMemory };

    fn from(_e: NoMemory) -> NotTaken {
        NotTaken::NoMemory
    }
}
