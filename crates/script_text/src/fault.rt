ghost use Rattle.std.specs.Prelude.{◌≡◌};
ghost use Rattle.script_text.specs.declared.fault.LineFault.TheVariants.{NoMemory as no_memory};

use etcd_types::NoMemory;
use thiserror::Error;

/// Why bytes aren't a line or an item.
#[derive(Clone, Copy, Debug, PartialEq, Eq, Error)]
pub enum LineFault {
    /// The line with this number, or an item with number 0, has no text of the grammar. The place is the number, from 1,
    /// of its first word that is wrong, missing or too many.
    #[error("BadLine {place}")]
    BadLine { number: u64, place: u64 },
    #[error("no memory")]
    NoMemory,
}

impl From<NoMemory> for LineFault {
    ghost from_gives = { λ _ e. e ≡ no_memory };

    fn from(_e: NoMemory) -> LineFault {
        LineFault::NoMemory
    }
}
