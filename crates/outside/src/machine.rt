ghost use Rattle.std.specs.Prelude.{ℕ, Result};

/// How many lots there are for passes to rest in. A lot is a number below it.
pub const LOTS: u32 = 1024;

/// The first lot of those, up to `LOTS`, in which any one pass can take what is there, a crew's: where such a lot is
/// roused, one pass wakes. In a lot below it every pass wakes.
pub const CREWS: u32 = 960;

/// How many words of 64 bits have one bit for each lot.
pub const LOT_WORDS: u32 = LOTS / 64;

/// Whom a step gave something to take.
#[derive(Clone, Copy, Debug, PartialEq, Eq)]
pub enum Roused {
    Nobody,
    /// The lots that `Machine::roused` names.
    Lots,
    /// Every pass that rests, all of each crew too.
    Everybody,
}

/// A state that changes by one event at a time, as the core of the proxy does.
///
/// A hub moves its machine out of a slot and back at each step, so a machine of more than a few words keeps its parts
/// behind one box.
pub trait Machine: Drop {
    /// What comes in.
    type Event: Drop;

    /// What a step answers.
    type Outcome: Drop;

    /// What a step answers where it did not do what was asked.
    type Fault: Drop;

    // which events a step takes
    ghost may: { Self.Event → Type 0 };

    // the machine before a step, the event, the clock's reading in milliseconds, the answer, and the machine after it
    ghost steps: { Self → Self.Event → ℕ → Result Self.Outcome Self.Fault → Self → Type 0 };

    /// Does one step at a clock that reads `now` milliseconds.
    fn step(&mut self, event: Self::Event, now: u64) -> Result<Self::Outcome, Self::Fault>
        requires { may event }
        ensures { steps self.old event now result self.new };

    /// Whom the last step gave something to take, so that it is worth waking. No clause speaks of it: waking too many
    /// costs time, and one who is not woken rests on until a later step rouses it.
    fn rouses(&self) -> Roused {
        Roused::Everybody
    }

    /// Which of the lots from `64 * word` on to rouse, where `rouses` says `Lots`. Bit b speaks of the lot
    /// `64 * word + b`, and `word` is below `LOT_WORDS`.
    fn roused(&self, word: u32) -> u64 {
        let _ = word;
        u64::MAX
    }
}
