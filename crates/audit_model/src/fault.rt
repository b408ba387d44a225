ghost use Rattle.std.specs.Prelude.{◌≡◌, Some};
ghost use Rattle.audit_model.specs.Texts.{fault_text, refusal_text};
ghost use Rattle.audit_model.specs.declared.fault.AuditFault.TheVariants.{NoMemory as no_memory};

use etcd_types::NoMemory;
use std::error::Error;
use std::fmt;

/// Which rule an item of a transcript breaks: the first one, in this order. Each shows as its name and its numbers.
#[derive(Clone, Copy, Debug, PartialEq, Eq)]
pub enum AuditFault {
    /// The item isn't in order: the call, stream, ticket, lease, member or proxy that it is about, or 0 for a world.
    Order(u64),
    /// The answer to the call of this number isn't the store's.
    Answer(u64),
    /// The message of the stream of this number isn't the store's.
    Push(u64),
    /// The ticket was replied with no call of its own, and the reply isn't what the store holds.
    Unsent(u64),
    /// The watch of this ticket takes what isn't next for it.
    Watch(u64),
    /// A session expires before its owner's clock reads `floor`. Both are in milliseconds.
    Early { clock: u64, floor: u64 },
    NoMemory,
}

impl fmt::Display for AuditFault {
    ghost output = { λ fault. Some (fault_text fault) };

    fn fmt<W: fmt::Write>(&self, f: &mut fmt::Formatter<W>) -> fmt::Result {
        match self {
            AuditFault::Order(number) => write!(f, "Order {number}"),
            AuditFault::Answer(call) => write!(f, "Answer {call}"),
            AuditFault::Push(stream) => write!(f, "Push {stream}"),
            AuditFault::Unsent(ticket) => write!(f, "Unsent {ticket}"),
            AuditFault::Watch(ticket) => write!(f, "Watch {ticket}"),
            AuditFault::Early { clock, floor } => write!(f, "Early {clock} {floor}"),
            AuditFault::NoMemory => f.write_str("no memory"),
        }
    }
}

impl Error for AuditFault {}

impl From<NoMemory> for AuditFault {
    ghost from_gives = { λ _ e. e ≡ no_memory };

    fn from(_e: NoMemory) -> AuditFault {
        AuditFault::NoMemory
    }
}

/// Why a line of a transcript is refused. It shows as its name and its numbers.
#[derive(Clone, Copy, Debug, PartialEq, Eq)]
pub enum AuditRefusal {
    /// It isn't the text of an item: the position, from 1, of its first word that is wrong, missing or too many.
    BadLine { place: u64 },
    /// It is the text of an item that breaks a rule.
    Breaks(AuditFault),
}

impl fmt::Display for AuditRefusal {
    ghost output = { λ refusal. Some (refusal_text refusal) };

    fn fmt<W: fmt::Write>(&self, f: &mut fmt::Formatter<W>) -> fmt::Result {
        match self {
            AuditRefusal::BadLine { place } => write!(f, "BadLine {place}"),
            AuditRefusal::Breaks(fault) => write!(f, "{fault}"),
        }
    }
}

impl Error for AuditRefusal {}
