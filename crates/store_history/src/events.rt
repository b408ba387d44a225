use etcd_types::{Event, List};

/// What a watch is told at once, and the revision from which it goes on.
#[derive(Debug, Drop)]
pub struct Batch {
    pub events: List<Event>,
    pub next: u64,
}
