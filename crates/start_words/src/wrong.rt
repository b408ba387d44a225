ghost use Rattle.std.specs.Prelude.{◌≡◌};

use crate::fault::{Cause, StartOption};
use etcd_types::{Bytes, NoMemory};

/// A value of an option that isn't of its form.
#[derive(Debug, PartialEq, Eq, Drop)]
pub struct Wrong {
    pub option: StartOption,
    /// The word; of several endpoints the first that is wrong.
    pub word: Bytes,
    pub cause: Cause,
}

/// Why a value gave nothing.
#[derive(Debug, PartialEq, Eq, Drop)]
pub enum ValueFault {
    /// It isn't of its form.
    Wrong(Wrong),
    /// Memory was wanting.
    NoMemory,
}

impl From<NoMemory> for ValueFault {
    ghost use Rattle.start_words.specs.declared.wrong.ValueFault.TheVariants as fault;

    ghost from_gives = { λ _ e. e ≡ fault.NoMemory };

    fn from(_e: NoMemory) -> ValueFault {
        ValueFault::NoMemory
    }
}
