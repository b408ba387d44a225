use crate::found::FoundList;
use crate::sending::Sending;
use etcd_types::{KeyRange, List, Request};

/// An unanswered write: a put, a delete, or a transaction that puts or deletes.
#[derive(Debug, Drop)]
pub struct Write {
    pub ticket: u64,
    pub request: Request,
    /// The distinct ranges that it writes, rising.
    pub ranges: List<KeyRange>,
    pub stage: WriteStage,
}

/// What a write waits for.
#[derive(Debug, Drop)]
pub enum WriteStage {
    /// Until earlier writes, acquires and entries of its keys are out of the way.
    Waiting,
    /// For its own call; `owner` where that compares entries of this proxy.
    Sends { owner: bool, sending: Sending },
    /// Until the owners that its call found have given up.
    Finds { found: FoundList },
}
