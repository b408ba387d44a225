/// When a lease expires.
#[derive(Clone, Copy, Debug, PartialEq, Eq)]
pub struct Deadline {
    /// The lease's number.
    pub number: u64,
    /// The reading of the server's clock at which it expires, in milliseconds.
    pub at: u64,
}
