use etcd_types::KeyRange;
use watch_resume::Upstream;

/// How far a stream's opening has come.
#[derive(Clone, Copy, Debug, PartialEq, Eq)]
pub enum StreamPhase {
    /// It is to be opened, since this step.
    Due { since: u64 },
    /// Its opening was sent. Whether it stands created is its upstream's to say.
    Begun,
    /// It is to be closed, since this step: it has no members.
    Closing { since: u64 },
}

/// A stream that a proxy opened, or is to open, for the watches of one range.
#[derive(Debug, Drop)]
pub struct Stream {
    /// Counted from 1; each time that it is to be opened anew it takes the next one.
    pub number: u64,
    pub phase: StreamPhase,
    pub stream: Upstream,
}

/// A closing or opening of a stream that is to be sent.
#[derive(Debug, PartialEq, Eq, Drop)]
pub enum StreamJob {
    Close {
        stream: u64,
    },
    /// All events of the range from revision `start` on, or behind the newest one for 0.
    Open {
        stream: u64,
        range: KeyRange,
        start: u64,
    },
}

/// The stream that a watch joined, by its number.
#[derive(Clone, Copy, Debug, PartialEq, Eq)]
pub enum Joined {
    /// One that stood or was being opened.
    Standing(u64),
    /// One that is to be opened for it.
    Fresh(u64),
}
