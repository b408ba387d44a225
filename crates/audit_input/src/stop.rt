ghost use Rattle.std.specs.Prelude.{◌≡◌};
ghost use Rattle.audit_input.specs.declared.stop.AuditStop.TheVariants as stop;

use etcd_types::NoMemory;
use std::alloc::AllocError;

/// What stops an audit before its transcript ends or a line is refused.
#[derive(Clone, Copy, Debug, PartialEq, Eq)]
pub enum AuditStop {
    /// The input failed.
    ReadFault,
    NoMemory,
}

impl From<NoMemory> for AuditStop {
    ghost from_gives = { λ _ e. e ≡ stop.NoMemory };

    fn from(_e: NoMemory) -> AuditStop {
        AuditStop::NoMemory
    }
}

impl From<AllocError> for AuditStop {
    ghost from_gives = { λ _ e. e ≡ stop.NoMemory };

    fn from(_e: AllocError) -> AuditStop {
        AuditStop::NoMemory
    }
}
