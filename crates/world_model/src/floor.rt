/// Before which reading of its owner's clock a session can't have expired at the store.
#[derive(Clone, Copy, Debug, PartialEq, Eq)]
pub struct Floor {
    /// The proxy that sent the session's grant, and whose clock is read.
    pub proxy: u64,
    /// In milliseconds of that clock.
    pub floor: u64,
}
