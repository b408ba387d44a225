use etcd_types::{Bytes, Request};

/// The kinds of due jobs whose order is that of the steps in which they became due; of one step, in this order.
#[derive(Clone, Copy, Debug, PartialEq, Eq)]
pub enum JobKind {
    /// A call that asks an owner to give its key up; of one step, by key.
    Revoke,
    /// A call of a request; of one step, by ticket.
    Call,
    /// The closing of a stream; of one step, by its number.
    Close,
    /// The opening of a stream; of one step, by its number.
    Open,
}

/// Where a due job stands in the order of sending.
#[derive(Clone, Copy, Debug, PartialEq, Eq)]
pub struct Place {
    /// The step in which it became due.
    pub since: u64,
    pub kind: JobKind,
    /// The ticket, or the number of the stream.
    pub number: u64,
}

/// A revoke call or a write's own call that is due; its place has the write's ticket.
#[derive(Debug, PartialEq, Eq, Drop)]
pub struct DueCall {
    pub place: Place,
    /// The key that was found, and no byte for a write's own call.
    pub key: Bytes,
    /// The create revision of the ownership key that was found, or 0.
    pub create: u64,
}

/// A call to be sent.
#[derive(Debug, PartialEq, Eq, Drop)]
pub struct Due {
    pub kind: DueKind,
    /// Whose it is, or 0 for a rescind.
    pub ticket: u64,
    pub request: Request,
}

/// What a call of a write or of an entry is.
#[derive(Clone, Copy, Debug, PartialEq, Eq)]
pub enum DueKind {
    /// It gives a key up.
    Rescind,
    /// It asks an owner to give its key up.
    AskRevoke,
    /// A write that compares entries of this proxy.
    Owner,
    /// A write of one key that nobody is known to own.
    Guest,
    /// A write of several keys that nobody is known to own.
    Several,
}
