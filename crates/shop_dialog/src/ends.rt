use http_wire::WireFault;
use thiserror::Error;

/// How a connection to the store ended.
#[derive(Clone, Copy, Debug, PartialEq, Eq, Error)]
pub enum StoreEnd {
    /// The input ended between two requests, or the last request asked to close and has its reply.
    #[error("closed")]
    Closed,
    /// The bytes that came are no request; one of the first five faults of a wire.
    #[error("bad request: {0}")]
    BadRequest(WireFault),
    /// The source failed.
    #[error("read fault")]
    ReadFault,
    /// The sink failed.
    #[error("write fault")]
    WriteFault,
    /// No further step can be made.
    #[error("worn")]
    Worn,
    /// Memory was wanting.
    #[error("no memory")]
    NoMemory,
}
