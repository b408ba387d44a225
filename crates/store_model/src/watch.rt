use etcd_types::WatchAsk;

/// A watch that a member of the store serves.
#[derive(Debug, PartialEq, Eq, Drop)]
pub struct OpenWatch {
    /// The member that it was opened at, from 1.
    pub member: u32,
    pub ask: WatchAsk,
    /// The least revision of which no event was pushed yet, or 0 where the created message was not pushed yet.
    pub next: u64,
}
