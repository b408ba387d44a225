ghost use Rattle.std.specs.Prelude.{◌≡◌};
ghost use Rattle.http_wire.specs.declared.fault.WireFault.TheVariants.{NoMemory as Wanting};

use etcd_types::NoMemory;
use std::alloc::{AllocError, AllocFailed};
use thiserror::Error;

/// Why nothing more was read or written. The first five are about the bytes that came.
#[derive(Clone, Copy, Debug, PartialEq, Eq, Error)]
pub enum WireFault {
    /// The bytes up to a head's end, or up to a trailer's, are not one that is taken: `httparse` refuses them, they have
    /// more than 64 fields or another version than 1.1, they state the body's length twice or wrongly, or a request has
    /// not exactly one `Host`.
    #[error("bad head")]
    BadHead,
    /// The first 65,536 bytes of a head or a trailer don't end it, and there is a further byte.
    #[error("head too long")]
    HeadTooLong,
    /// A request's body has more than 4,194,304 bytes, or a line or a body of an answer more than the call allows.
    #[error("body too long")]
    BodyTooLong,
    /// A chunk's size line is none, or has more than 65,536 bytes, or a chunk's data doesn't end with CR LF.
    #[error("bad chunk")]
    BadChunk,
    /// The input ended within a head or a body.
    #[error("ended early")]
    EndedEarly,
    /// The source failed.
    #[error("read fault")]
    ReadFault,
    /// The sink failed.
    #[error("write fault")]
    WriteFault,
    /// Memory was wanting.
    #[error("no memory")]
    NoMemory,
}

impl From<NoMemory> for WireFault {
    ghost from_gives = { λ _ e. e ≡ Wanting };

    fn from(_e: NoMemory) -> WireFault {
        WireFault::NoMemory
    }
}

impl From<AllocError> for WireFault {
    ghost from_gives = { λ _ e. e ≡ Wanting };

    fn from(_e: AllocError) -> WireFault {
        WireFault::NoMemory
    }
}
