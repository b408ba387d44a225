ghost use Rattle.std.specs.Prelude.{◌≡◌, ℕ, List, Option, ◌∷◌, [], IfOk};
ghost use Rattle.outside.specs.Calls.{Adds, LinkCall, Begun, Ended, had, HasLinkCause};

use crate::source::{Failed, Source};
use etcd_types::NoMemory;
use thiserror::Error;

/// An answer to a call has at most so many bytes, its head counted.
pub const CALL_LIMIT: usize = 67_108_864;

/// Why a call on a link has no answer.
#[derive(Clone, Copy, Debug, PartialEq, Eq, Error)]
pub enum LinkFault {
    /// The member isn't reached, or took a front of the call alone; and the count of the link rose. Whether the call was done
    /// isn't known.
    #[error("the link failed")]
    Failed,
    /// Memory was wanting.
    #[error("no memory")]
    NoMemory,
}

impl From<NoMemory> for LinkFault {
    ghost use Rattle.outside.specs.declared.link.LinkFault.TheVariants as link;

    ghost from_gives = { λ _ e. e ≡ link.NoMemory };

    fn from(_e: NoMemory) -> LinkFault {
        LinkFault::NoMemory
    }
}

impl From<Failed> for LinkFault {
    ghost use Rattle.outside.specs.declared.link.LinkFault.TheVariants as link;

    ghost from_gives = { λ _ e. e ≡ link.Failed };

    fn from(_e: Failed) -> LinkFault {
        LinkFault::Failed
    }
}

/// What a call is for. It says how long its answer is waited for, and whether another endpoint may stand in for the member's.
#[derive(Clone, Copy, Debug, PartialEq, Eq)]
pub enum CallKind {
    /// It changes no key, and has little to do: a range of one key, a transaction that only reads, a call on a lease that
    /// leaves the keys as they are.
    Reads,
    /// Any other range.
    Scans,
    /// A put, a deletion, a transaction that may write, a compaction, the revocation of a lease.
    Writes,
    /// The grant of the lease with this number, which is to be a proxy's session.
    Session(u64),
    /// A watch, whose answer comes as long as it is wanted, for the stream with this number.
    Watches(u64),
    /// Whether the member's own endpoint answers.
    Asks,
}

/// How far an answer was read when it is given back.
#[derive(Clone, Copy, Debug, PartialEq, Eq)]
pub enum AnswerEnd {
    /// To the end that it states itself and no further, and nothing in it asks for the end of its connection, which may
    /// therefore carry another call (RFC 9112, section 9.3).
    Whole,
    /// Not to its end, or its end is the connection's.
    Broken,
    /// Up to where it passes a limit of its reader.
    TooLong,
}

/// The way to the members of a cluster. Member numbers begin with 1.
///
/// A call is begun, its answer read as a source, and the answer then given back. A link keeps what it needs of memory.
pub trait Link {
    /// The answer to a call, as it comes.
    type Answer: Source + Drop;

    /// The calls that were made on it, in order, for as long as it tells them.
    ghost made: { Self → Option (List LinkCall) };

    /// How often it has failed.
    ghost faults: { Self → ℕ };

    /// Sends these bytes to a member, at most once, and lends what it answers.
    fn begin(&mut self, member: u32, kind: CallKind, call: &[u8]) -> Result<Self::Answer, LinkFault>
        ensures made { Adds (made self.old) (made self.new) (Begun member kind call.now (had Self.Answer.left result) ∷ []) }
        ensures fresh { IfOk result (λ answer. Self.Answer.faults answer ≡ 0) }
        ensures cause { HasLinkCause (faults self.old) (faults self.new) result };

    /// Takes an answer back, and hears how far it was read.
    fn end(&mut self, answer: Self::Answer, how: AnswerEnd)
        ensures made { Adds (made self.old) (made self.new) (Ended (Self.Answer.left answer) (Self.Answer.faults answer) how ∷ []) }
        ensures kept { faults self.new ≡ faults self.old };

    /// Hears that nobody wants the stream with this number any more. It may not have been begun yet. It makes no call.
    fn forget(&mut self, stream: u64)
        ensures made { made self.new ≡ made self.old }
        ensures kept { faults self.new ≡ faults self.old };
}
