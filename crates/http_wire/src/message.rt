use etcd_types::Bytes;
use http::Method;

/// Where a body ends, and how far it has been read.
#[derive(Clone, Copy, Debug, PartialEq, Eq)]
pub enum Framing {
    /// So many bytes of it are still to come.
    Length(u64),
    /// It comes in chunks (RFC 9112, section 7.1). `left` is 0 before a size line, and within a chunk one more than the
    /// bytes of its data that are still to come. Where `done`, the last chunk and its trailer were read.
    Chunks { left: u64, done: bool },
    /// It ends with the input, in an answer alone.
    ToEnd,
}

/// The head of a request.
#[derive(Debug, Drop)]
pub struct Head {
    /// The method, in any case as it was sent.
    pub method: Method,
    /// The request's target.
    pub path: Bytes,
    /// The body's framing, which is a length or chunks.
    pub framing: Framing,
    /// `Connection` lists `close`.
    pub close: bool,
    /// `Expect` lists `100-continue`.
    pub expects: bool,
    /// A `Content-Encoding` is there that isn't `identity`.
    pub encoded: bool,
}

/// The head of an answer.
#[derive(Clone, Copy, Debug, PartialEq, Eq)]
pub struct AnswerHead {
    /// The status, from 0 to 999.
    pub status: u16,
    /// The body's framing.
    pub framing: Framing,
    /// `Connection` lists `close`: no other answer comes on this connection (RFC 9112, section 9.6).
    pub closes: bool,
}
