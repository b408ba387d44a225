ghost use Rattle.std.specs.Prelude.{◌≡◌, Err};
ghost use Rattle.server_model.specs.Dialog.{is_worn};
ghost use Rattle.server_model.specs.Steps.{is_for_memory};

use core_model::StepFault;
use thiserror::Error;

/// Why a turn gave no outcome.
#[derive(Clone, Copy, Debug, PartialEq, Eq, Error)]
pub enum TurnFault {
    /// It makes no more steps.
    #[error("worn")]
    Worn,
    /// The core's own.
    #[error(transparent)]
    Core(StepFault),
}

impl TurnFault {
    /// Whether the turn makes no more steps.
    pub fn is_worn(self) -> bool
        ensures { result ≡ is_worn (Err self) }
    {
        matches!(self, TurnFault::Worn)
    }

    /// Whether memory was wanting for the step.
    pub fn is_for_memory(self) -> bool
        ensures { result ≡ is_for_memory self }
    {
        matches!(self, TurnFault::Core(StepFault::NoMemory))
    }
}

/// Why a call gave no answer.
#[derive(Clone, Copy, Debug, PartialEq, Eq, Error)]
pub enum CallFault {
    /// The link failed, what came is no reply, or it is a refusal by a code that doesn't say that nothing was done. Whether the
    /// call was done isn't known.
    #[error("the call was lost")]
    Lost,
    /// Memory was wanting.
    #[error("no memory")]
    NoMemory,
}
