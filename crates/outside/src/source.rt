ghost use Rattle.std.specs.Prelude.{◌≡◌, List, ℕ, Option, Result, length};
ghost use Rattle.std.specs.Io.{ReadsAtMost};
ghost use Rattle.std.specs.Io.KnownBytes.{ReadConsumes, Keeps};
ghost use Rattle.outside.specs.Faults.{HasCause};
ghost use Rattle.outside.specs.Reads.{came};

use crate::marks::ReadMark;
use thiserror::Error;

/// The outside failed, and the count of the object that was called rose.
#[derive(Clone, Copy, Debug, PartialEq, Eq, Error)]
#[error("the outside failed")]
pub struct Failed;

/// Bytes that come in pieces.
pub trait Source {
    ghost use Rattle.outside.specs.declared.source.Failed.{Failed};

    /// The bytes that it still gives, where it tells them.
    ghost left: { Self → Option (List ℕ) };

    /// How often it has failed.
    ghost faults: { Self → ℕ };

    /// Which reads it may make: of what it was before, the size of the room, the bytes that came, and what it is then. It may leave open
    /// which, where nothing is known of them.
    ghost reads: { Self → ℕ → Result (List ℕ) Failed → Self → Type 0 };

    /// Reads the next bytes into the front of `room`, and says how many. None into a room that isn't empty is the end.
    /// Where it answers `Failed` the bytes are still to come.
    fn read(&mut self, room: &mut [u8]) -> Result<usize, Failed>
        ensures bound { ReadsAtMost result room.new }
        ensures bytes { ReadConsumes (left self.old) (left self.new) result room.new }
        ensures made { reads self.old (length room.old) (came result room.new) self.new }
        ensures cause { HasCause (faults self.old) (faults self.new) result };

    /// Looks whether the other end is still there, as far as that is seen without a read. It takes no bytes, and doesn't
    /// wait.
    fn check(&mut self) -> Result<(), Failed>
        ensures bytes { Keeps (left self.old) (left self.new) }
        ensures cause { HasCause (faults self.old) (faults self.new) result };

    /// Hears what was read of its bytes. It reads nothing.
    fn mark(&mut self, mark: ReadMark)
        ensures bytes { left self.new ≡ left self.old }
        ensures kept { faults self.new ≡ faults self.old };
}
