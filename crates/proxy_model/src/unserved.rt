/// What of a request isn't served, by the field that asks for it.
#[derive(Clone, Copy, Debug, PartialEq, Eq)]
pub enum Unserved {
    /// A put that keeps its key's present lease: `ignore_lease`.
    IgnoreLease,
    /// A transaction within a transaction: `request_txn`.
    NestedTxn,
}
