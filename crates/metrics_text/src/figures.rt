use etcd_types::{Bytes, List};
use outside::RequestKind;

/// What a proxy tells of itself at a moment.
#[derive(Debug, Drop)]
pub struct Figures {
    pub clients: ClientFigures,
    pub machine: MachineFigures,
    pub work: WorkFigures,
    pub replies: List<ReplyFigure>,
    pub members: List<MemberFigure>,
    /// The ranges whose streams brought the most messages, the busiest first.
    pub ranges: List<RangeFigure>,
}

/// What it serves.
#[derive(Clone, Copy, Debug, PartialEq, Eq)]
pub struct ClientFigures {
    /// The connections that are open, and those that ever were.
    pub open: u64,
    pub opened: u64,
    /// The watches that are being served, the messages that all watches were sent, and the events in them.
    pub watches: u64,
    pub messages: u64,
    pub events: u64,
    /// The reads that were answered from memory.
    pub cached: u64,
}

/// What its machine has.
#[derive(Clone, Copy, Debug, PartialEq, Eq)]
pub struct MachineFigures {
    /// The keys that it owns.
    pub owned: u64,
    /// The requests that have no reply yet.
    pub waiting: u64,
    /// Its steps.
    pub steps: u64,
    /// The highest revision of the store that it was told.
    pub revision: u64,
    /// How many milliseconds are left until its session ends.
    pub session: u64,
}

/// What its workers do, and what it has of its members.
#[derive(Clone, Copy, Debug, PartialEq, Eq)]
pub struct WorkFigures {
    /// The workers, and those that are inside calls.
    pub workers: u64,
    pub busy: u64,
    /// The streams of members that are followed.
    pub streams: u64,
    /// The calls that no member took.
    pub untaken: u64,
}

/// How many requests of a kind had a status; 0 stands for those that aren't told apart.
#[derive(Clone, Copy, Debug, PartialEq, Eq)]
pub struct ReplyFigure {
    pub kind: RequestKind,
    pub status: u16,
    pub count: u64,
}

/// Whether a member answers, as far as it is known.
#[derive(Clone, Copy, Debug, PartialEq, Eq)]
pub enum MemberState {
    /// It does.
    Up,
    /// A call to it failed just now.
    Suspect,
    /// It doesn't.
    Down,
    /// It asks for a user.
    Barred,
}

/// What a proxy has of a member of the cluster.
#[derive(Debug, Drop)]
pub struct MemberFigure {
    /// From 1 on.
    pub number: u32,
    /// Its address, as it was named.
    pub host: Bytes,
    pub state: MemberState,
    /// The calls to it that ended, those of them whose answer was lost, and how many microseconds all took.
    pub made: u64,
    pub lost: u64,
    pub micros: u64,
}

/// How many messages came on a member's stream of a range since it was begun.
#[derive(Debug, Drop)]
pub struct RangeFigure {
    /// The key at which the range begins, and its end as etcd has it; an empty end for one key.
    pub first: Bytes,
    pub end: Bytes,
    pub messages: u64,
}
