ghost use Rattle.std.specs.Prelude.{◌≡◌};
ghost use Rattle.replay_input.specs.declared.refused.NotTaken.TheVariants.{Refused, NoMemory};

use etcd_types::NoMemory;
use world_model::LineRefusal;

/// Why a line of a script wasn't taken.
#[derive(Clone, Copy, Debug, PartialEq, Eq)]
pub(crate) enum NotTaken {
    /// It is refused.
    Refused(LineRefusal),
    /// Memory was wanting, which is no fault of the line.
    NoMemory,
}

impl From<LineRefusal> for NotTaken {
    ghost from_gives = { λ refusal e. e ≡ Refused refusal };

    fn from(refusal: LineRefusal) -> NotTaken {
        NotTaken::Refused(refusal)
    }
}

impl From<NoMemory> for NotTaken {
    ghost from_gives = { λ _ e. e ≡ NoMemory };

    fn from(_e: NoMemory) -> NotTaken {
        NotTaken::NoMemory
    }
}
