/// Where a watch stands.
#[derive(Clone, Copy, Debug, PartialEq, Eq)]
pub enum WatchPlace {
    /// It is a member of the stream with this number.
    In(u64),
    /// It was too slow for its stream, and joins one again when its queue is empty.
    Split,
    /// It was given a cancellation.
    Ended,
}
