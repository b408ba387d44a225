ghost use Rattle.std.specs.Prelude.{◌≡◌, Some};
ghost use Rattle.world_model.specs.Refusals.{fault_text, refusal_text};
ghost use Rattle.world_model.specs.declared.fault.WorldFault.TheVariants.{NoMemory as no_memory};

use etcd_types::NoMemory;
use std::error::Error;
use std::fmt;

/// Why a line that is in the grammar can't be taken. The world is then as it was, but for the clock work and the count of
/// steps of the proxy that made a step. Each shows as its name and its numbers.
#[derive(Clone, Copy, Debug, PartialEq, Eq)]
pub enum WorldFault {
    /// The proxy of this number wasn't started.
    NoSuchProxy(u64),
    /// The store has no member of this number.
    NoSuchMember(u64),
    /// No call of this number was sent, or it was executed, answered or lost before, or its proxy was started again.
    NoSuchCall(u64),
    /// The call of this number wasn't executed yet.
    NotExecuted(u64),
    /// No stream of this number was opened, or it was cut, closed or cancelled, or its proxy doesn't know it any more.
    NoSuchStream(u64),
    /// The store has no message for the stream of this number.
    NothingToPush(u64),
    /// No message of the stream of this number waits.
    NothingToDeliver(u64),
    /// The watch of this stream did not ask for messages on its progress.
    NotAsked(u64),
    /// The stream has something to push first. `next` is the revision that it waits for, or 0 before its first message.
    NotSynced { next: u64, newest: u64 },
    /// There is no lease of this number.
    NoSuchLease(u64),
    /// The session can't expire before its owner's clock reads `floor`.
    NotDue { clock: u64, floor: u64 },
    /// The ticket was asked or posted at the proxy since its last start.
    TicketUsed(u64),
    /// The ticket is none that the proxy knows.
    NoSuchTicket(u64),
    /// The proxy of this number has nothing due.
    NothingToSend(u64),
    /// A clock goes on: it reads `clock`, which is more than what was asked for.
    ClockBack { clock: u64, asked: u64 },
    /// A member can apply no revision below the one that it has applied, and none above the newest.
    BadApply { applied: u64, newest: u64 },
    /// The proxy of this number has used up its numbers, and makes no step any more.
    Worn(u64),
    NoMemory,
}

impl fmt::Display for WorldFault {
    ghost output = { λ fault. Some (fault_text fault) };

    fn fmt<W: fmt::Write>(&self, f: &mut fmt::Formatter<W>) -> fmt::Result {
        match self {
            WorldFault::NoSuchProxy(proxy) => write!(f, "NoSuchProxy {proxy}"),
            WorldFault::NoSuchMember(member) => write!(f, "NoSuchMember {member}"),
            WorldFault::NoSuchCall(call) => write!(f, "NoSuchCall {call}"),
            WorldFault::NotExecuted(call) => write!(f, "NotExecuted {call}"),
            WorldFault::NoSuchStream(stream) => write!(f, "NoSuchStream {stream}"),
            WorldFault::NothingToPush(stream) => write!(f, "NothingToPush {stream}"),
            WorldFault::NothingToDeliver(stream) => write!(f, "NothingToDeliver {stream}"),
            WorldFault::NotAsked(stream) => write!(f, "NotAsked {stream}"),
            WorldFault::NotSynced { next, newest } => write!(f, "NotSynced {next} {newest}"),
            WorldFault::NoSuchLease(lease) => write!(f, "NoSuchLease {lease}"),
            WorldFault::NotDue { clock, floor } => write!(f, "NotDue {clock} {floor}"),
            WorldFault::TicketUsed(ticket) => write!(f, "TicketUsed {ticket}"),
            WorldFault::NoSuchTicket(ticket) => write!(f, "NoSuchTicket {ticket}"),
            WorldFault::NothingToSend(proxy) => write!(f, "NothingToSend {proxy}"),
            WorldFault::ClockBack { clock, asked } => write!(f, "ClockBack {clock} {asked}"),
            WorldFault::BadApply { applied, newest } => write!(f, "BadApply {applied} {newest}"),
            WorldFault::Worn(proxy) => write!(f, "Worn {proxy}"),
            WorldFault::NoMemory => f.write_str("no memory"),
        }
    }
}

impl Error for WorldFault {}

impl From<NoMemory> for WorldFault {
    ghost from_gives = { λ _ e. e ≡ no_memory };

    fn from(_e: NoMemory) -> WorldFault {
        WorldFault::NoMemory
    }
}

/// Why a line of a script is refused. It shows as its name and its numbers.
#[derive(Clone, Copy, Debug, PartialEq, Eq)]
pub enum LineRefusal {
    /// It isn't in the grammar: the place, from 1, of its first word that is wrong, missing or too many.
    BadLine { place: u64 },
    /// It is in the grammar, and the world can't take it.
    World(WorldFault),
}

impl fmt::Display for LineRefusal {
    ghost output = { λ refusal. Some (refusal_text refusal) };

    fn fmt<W: fmt::Write>(&self, f: &mut fmt::Formatter<W>) -> fmt::Result {
        match self {
            LineRefusal::BadLine { place } => write!(f, "BadLine {place}"),
            LineRefusal::World(fault) => write!(f, "{fault}"),
        }
    }
}

impl Error for LineRefusal {}
