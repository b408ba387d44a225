/// A lease that was granted and has not ended.
#[derive(Clone, Copy, Debug, PartialEq, Eq)]
pub struct Lease {
    pub number: u64,
    /// The time to live that it was granted, in seconds.
    pub ttl: u64,
}
