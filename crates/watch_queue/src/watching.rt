use crate::queue::Queue;
use etcd_types::{KeyRange, WatchAsk};
use watch_model::WatchPlace;

/// A watch, with its queue.
#[derive(Drop)]
pub struct Watching {
    pub ticket: u64,
    /// As it was asked, but that an empty key of the range is one zero byte.
    pub ask: WatchAsk,
    /// The first revision of which it is to have the events, or 0 as long as it isn't known.
    pub start: u64,
    /// The revision that it brought to its stream: its own next is this, or its stream's next where that is greater.
    pub next: u64,
    /// Its created item was queued.
    pub told: bool,
    pub queue: Queue,
    pub place: WatchPlace,
    /// A copy of its range, made where a stream of its own may be due and no memory may be wanting then.
    pub spare: Option<KeyRange>,
}
