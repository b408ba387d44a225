use etcd_types::{Answer, Bytes};

/// What a call is about.
#[derive(Debug, PartialEq, Eq, Drop)]
pub enum WaitJob {
    /// It gives a key up whose ownership key has this create revision.
    Rescind { key: Bytes, create: u64 },
    /// It asks the owner of a key to give it up.
    Revoke { key: Bytes },
    /// It is a write's own.
    Write,
}

/// A call that is out.
#[derive(Debug, PartialEq, Eq, Drop)]
pub struct WaitCall {
    pub call: u64,
    pub job: WaitJob,
}

/// What an answer or a loss settles.
#[derive(Debug, PartialEq, Eq, Drop)]
pub enum Settled {
    /// The write of this ticket, with this answer.
    Reply(u64, Answer),
    /// The write of this ticket, whose call was lost.
    Failed(u64),
    /// No write.
    Nothing,
}
