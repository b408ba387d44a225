use etcd_types::{Answer, Request};
use wait_model::Sending;

/// A request that was asked and whose reply wasn't taken yet.
#[derive(Debug, PartialEq, Eq, Drop)]
pub struct Asked {
    pub ticket: u64,
    pub request: Request,
    /// The drawn word that came with it.
    pub word: u64,
    /// When it was asked, in milliseconds of the proxy's clock.
    pub asked: u64,
    /// How many of its calls were lost.
    pub losses: u64,
    /// How many of its replies were stale.
    pub stales: u64,
    pub stage: Stage,
}

/// What a request waits for.
#[derive(Debug, PartialEq, Eq, Drop)]
pub enum Stage {
    /// For its own call.
    Calling(Sending),
    /// For the acquire of its key, which is for it.
    Acquiring,
    /// For the acquire of its key, which is for another read.
    Joined,
    /// For the owner write of its key.
    Behind,
    /// It is one of the unanswered writes.
    Writes,
    /// As a keepalive, for the call that it shares with others of its lease; nothing while one that is out is awaited first.
    Grouped(Option<Sending>),
    /// For nothing: its reply is to be taken.
    Replied(Verdict),
}

/// How a request ended.
#[derive(Debug, PartialEq, Eq, Drop)]
pub enum Verdict {
    /// With this answer.
    Said(Answer),
    /// After five seconds without one.
    TimedOut,
    /// Its call was lost.
    Lost,
    /// Each reply was older than what this proxy had told.
    Stale,
}
