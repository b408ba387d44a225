ghost use Rattle.std.specs.Prelude.{◌≡◌};
ghost use Rattle.outside.specs.Marks.{kind_of_request};

use etcd_types::Request;

/// What kind of request a client made.
#[derive(Clone, Copy, Debug, PartialEq, Eq)]
pub enum RequestKind {
    Range,
    Put,
    Delete,
    Txn,
    Compact,
    Grant,
    Revoke,
    KeepAlive,
    TimeToLive,
    Leases,
    /// Its reply lasts for as long as its client wants it.
    Watch,
    /// No request of these is in its bytes.
    Other,
}

impl RequestKind {
    /// The kind of this request, which isn't `Other`.
    pub fn of(request: &Request) -> RequestKind
        ensures { result ≡ kind_of_request request.now }
    {
        match request {
            Request::Range(_) => RequestKind::Range,
            Request::Put(_) => RequestKind::Put,
            Request::Delete(_) => RequestKind::Delete,
            Request::Txn(_) => RequestKind::Txn,
            Request::Compact { .. } => RequestKind::Compact,
            Request::Grant { .. } => RequestKind::Grant,
            Request::Revoke { .. } => RequestKind::Revoke,
            Request::KeepAlive { .. } => RequestKind::KeepAlive,
            Request::TimeToLive { .. } => RequestKind::TimeToLive,
            Request::Leases => RequestKind::Leases,
            Request::Watch(_) => RequestKind::Watch,
        }
    }
}

/// What a reader has read of a source's bytes, so that nobody has to look for it in them.
#[derive(Clone, Copy, Debug, PartialEq, Eq)]
pub enum ReadMark {
    /// The head of a request.
    Head,
    /// Its body. The next byte begins another request.
    Body,
    /// What the request is that was read, before anything is done for it.
    Request(RequestKind),
    /// A message of an answer, which was also heard.
    Message,
    /// That the answer ends, and that it isn't to be asked for again at once: who gives it lets some time pass now, but no longer than
    /// somebody wants what it gives.
    Rest,
}

/// What is written to a sink next, so that nobody has to look for it in the bytes.
#[derive(Clone, Copy, Debug, PartialEq, Eq)]
pub enum WriteMark {
    /// That the client shall go on with its request, which is no reply yet.
    Continue,
    /// The reply to a request, with this status: all of it, or where it comes in messages the head of it.
    Reply(u16),
    /// A message of a reply that comes in messages.
    Message,
    /// How many events the message has that is written next.
    Events(u64),
}
