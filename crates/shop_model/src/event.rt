use etcd_types::{Answer, Request, WatchAsk, WatchItem};
use thiserror::Error;

/// What comes to the store.
#[derive(Debug, PartialEq, Eq, Drop)]
pub enum StoreEvent {
    /// A client asks, but for no watch.
    Exec(Request),
    /// A client opens a watch.
    Open(WatchAsk),
    /// The next message of the watch of this number is asked for.
    Push(u64),
}

/// What an event gives.
#[derive(Debug, PartialEq, Eq, Drop)]
pub enum StoreOutcome {
    /// The answer to a request.
    Answer(Answer),
    /// The number of the watch that was opened, from 1.
    Opened(u64),
    /// The watch's next message.
    Item(WatchItem),
    /// The watch has nothing to tell yet.
    Nothing,
}

/// Why an event gave nothing.
#[derive(Clone, Copy, Debug, PartialEq, Eq, Error)]
pub enum StoreStepFault {
    /// No watch of this number was opened.
    #[error("no watch {0}")]
    NoSuchWatch(u64),
    /// Revisions and leases are used up: together they are 2^62 or more.
    #[error("worn")]
    Worn,
    #[error("no memory")]
    NoMemory,
}
