ghost use Rattle.std.specs.Prelude.{◌≡◌, ℕ, List, Option, ◌∷◌, [], IfErr};
ghost use Rattle.outside.specs.Calls.{Adds, Handed, is_done};
ghost use Rattle.outside.specs.Faults.{HasCause};
ghost use Rattle.outside.specs.declared.parts.Part.{Part};

use etcd_types::Bytes;

/// The tickets that a connection may still use: from `next` on, up to the one before `end`.
#[derive(Clone, Copy, Debug, PartialEq, Eq)]
pub struct TicketRange {
    pub next: u64,
    pub end: u64,
}

/// A stream that is to be opened at a member and followed.
#[derive(Debug, Drop, PartialEq, Eq)]
pub struct Follow {
    /// The stream's number in the core.
    pub stream: u64,
    /// The member that is asked, from 1 on.
    pub member: u32,
    /// The bytes of the call.
    pub call: Bytes,
}

/// What runs beside the others, mostly in a thread of its own. Each has a pass of the hub that it steps.
#[derive(Debug, Drop)]
pub enum Part<P, C> {
    /// Takes due calls, and makes them.
    Worker(P),
    /// Steps a tick now and then.
    Ticker(P),
    /// Serves an accepted connection.
    Connection(P, C, TicketRange),
    /// Opens a stream, and steps on what it brings.
    Follower(P, Follow),
}

/// What starts parts.
pub trait Spawner {
    type Pass;

    type Conn;

    /// The parts that were handed to it, in order, for as long as it tells them.
    ghost handed: { Self → Option (List (Handed (Part Self.Pass Self.Conn))) };

    /// How often it has failed.
    ghost faults: { Self → ℕ };

    /// Starts a part, or gives it back where it can't.
    fn start(
        &mut self,
        part: Part<Self::Pass, Self::Conn>,
    ) -> Result<(), Part<Self::Pass, Self::Conn>>
        ensures handed { Adds (handed self.old) (handed self.new) (record { part = part; started = is_done result } ∷ []) }
        ensures back { IfErr result (λ refused. refused ≡ part) }
        ensures cause { HasCause (faults self.old) (faults self.new) result };
}
