/// What a request may say that isn't served.
#[derive(Clone, Copy, Debug, PartialEq, Eq)]
pub enum Extra {
    /// `ignore_value` of a put, where true.
    IgnoreValue,
    /// `ignore_lease` of a put, where true.
    IgnoreLease,
    /// `request_txn`: a transaction within a transaction.
    RequestTxn,
    /// `watch_id` of a watch, where not 0.
    WatchId,
    /// `fragment` of a watch, where true.
    Fragment,
    /// `cancel_request` of a watch.
    CancelRequest,
    /// `progress_request` of a watch.
    ProgressRequest,
}

/// Who reads a request: that decides which extras are refused.
#[derive(Clone, Copy, Debug, PartialEq, Eq)]
pub enum Reading {
    /// A proxy reads its client's request, and refuses every extra.
    Client,
    /// A store reads a proxy's call, and takes `ignore_lease` and transactions within transactions.
    Call,
}
