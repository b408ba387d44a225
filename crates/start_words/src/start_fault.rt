ghost use Rattle.std.specs.Prelude.{◌≡◌};

use crate::wrong::{ValueFault, Wrong};
use etcd_types::NoMemory;
use std::alloc::AllocError;

/// Why the words name no settings.
#[derive(Debug, Drop)]
pub enum StartFault {
    /// Help was asked for. Its text.
    Help(String),
    /// The words aren't those of the command. What is wrong with them, and how it is used.
    Usage(String),
    /// A value isn't of its form.
    Wrong(Wrong),
    /// Memory was wanting.
    NoMemory,
}

impl From<ValueFault> for StartFault {
    ghost use Rattle.start_words.specs.Reads.{start_fault};

    ghost from_gives = { λ w e. e ≡ start_fault w };

    fn from(fault: ValueFault) -> StartFault {
        match fault {
            ValueFault::Wrong(wrong) => StartFault::Wrong(wrong),
            ValueFault::NoMemory => StartFault::NoMemory,
        }
    }
}

impl From<AllocError> for StartFault {
    ghost use Rattle.start_words.specs.declared.start_fault.StartFault.TheVariants as start;

    ghost from_gives = { λ _ e. e ≡ start.NoMemory };

    fn from(_e: AllocError) -> StartFault {
        StartFault::NoMemory
    }
}
