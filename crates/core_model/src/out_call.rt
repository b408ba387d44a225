use etcd_types::Bytes;

/// What kind a client's call is, as far as its answer and its loss are judged by it.
#[derive(Clone, Copy, Debug, PartialEq, Eq)]
pub enum CallKind {
    Range,
    /// A transaction that neither puts nor deletes.
    ReadTxn,
    /// Another transaction.
    WriteTxn,
    Put,
    Delete,
    Compact,
    Grant,
    Revoke,
    KeepAlive,
    TimeToLive,
    Leases,
}

/// What a call is for.
#[derive(Debug, PartialEq, Eq, Drop)]
pub enum OutJob {
    /// The grant of this session.
    Grant { lease: u64 },
    /// A keepalive of this session.
    Keep { lease: u64 },
    Acquire { key: Bytes },
    /// A write, a revocation or a rescind.
    Wait,
    /// A client's request, of this kind.
    Ask { kind: CallKind },
    /// The keepalives of this lease that share the call.
    Group { lease: u64 },
}

/// A call that is out.
#[derive(Debug, PartialEq, Eq, Drop)]
pub struct OutCall {
    pub call: u64,
    pub job: OutJob,
    /// The member that it was sent to.
    pub member: u32,
    /// The revision seen when it was sent.
    pub seen: u64,
    /// When it was sent, in milliseconds of the proxy's clock.
    pub sent_at: u64,
}
