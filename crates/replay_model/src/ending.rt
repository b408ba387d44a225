ghost use Rattle.std.specs.Prelude.{◌≡◌};
ghost use Rattle.replay_model.specs.Endings.{is_open};

use world_model::LineRefusal;

/// How far a script was taken.
#[derive(Clone, Copy, Debug, PartialEq, Eq)]
pub enum Ending {
    /// No line was refused so far.
    Open,
    /// The line of this number, from 1, is the first that was refused.
    Refused { number: u64, refusal: LineRefusal },
    /// The first refused line passes a limit.
    PastLimit,
}

impl Ending {
    /// Whether no line was refused so far.
    pub fn is_open(&self) -> bool
        ensures { result ≡ is_open self.now }
    {
        matches!(self, Ending::Open)
    }
}
