use http_wire::WireFault;
use outside::AnswerEnd;
use thiserror::Error;

/// How a connection ended.
#[derive(Clone, Copy, Debug, PartialEq, Eq, Error)]
pub enum SessionEnd {
    /// The input ended between two requests, or the last request asked to close and has its reply.
    #[error("closed")]
    Closed,
    /// The bytes that came are no request; one of the first five faults of a wire.
    #[error("bad request: {0}")]
    BadRequest(WireFault),
    /// The source failed.
    #[error("read fault")]
    ReadFault,
    /// The sink failed.
    #[error("write fault")]
    WriteFault,
    /// A ticket is needed, and each one of the connection's was asked.
    #[error("out of tickets")]
    OutOfTickets,
    /// The core doesn't know this ticket of the connection's any more, though nothing was taken for it.
    #[error("ticket {0} was taken")]
    TicketTaken(u64),
    /// No further step can be made.
    #[error("worn")]
    Worn,
    /// Memory was wanting.
    #[error("no memory")]
    NoMemory,
}

/// How following a stream ended.
#[derive(Clone, Copy, Debug, PartialEq, Eq, Error)]
pub enum StreamEnd {
    /// The stream ended or failed, or brought what is no message.
    #[error("cut")]
    Cut,
    /// The core doesn't know the stream any more.
    #[error("gone")]
    Gone,
    /// No further step can be made.
    #[error("worn")]
    Worn,
    /// Memory was wanting.
    #[error("no memory")]
    NoMemory,
}

/// How following a stream ends, and how far its answer was read by then.
#[derive(Clone, Copy, Debug, PartialEq, Eq)]
pub struct StreamStop {
    pub end: StreamEnd,
    pub read: AnswerEnd,
}

/// How a worker's turns ended.
#[derive(Clone, Copy, Debug, PartialEq, Eq, Error)]
pub enum WorkEnd {
    /// As many jobs were made as were asked for.
    #[error("all turns")]
    Turns,
    /// No further step can be made.
    #[error("worn")]
    Worn,
    /// Memory was wanting.
    #[error("no memory")]
    NoMemory,
}

/// How a part ended.
#[derive(Clone, Copy, Debug, PartialEq, Eq, Error)]
pub enum PartEnd {
    /// No further step can be made. Workers and the ticker end so alone.
    #[error("worn")]
    Worn,
    /// How the connection ended.
    #[error(transparent)]
    Connection(SessionEnd),
    /// How following the stream ended.
    #[error(transparent)]
    Follower(StreamEnd),
}
