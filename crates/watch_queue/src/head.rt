use etcd_types::Header;
use told_items::Told;

/// What a queue has of an item beside its events.
#[derive(Debug, Drop)]
pub enum Head {
    Created(Header),
    /// The first `count` of the events behind those of the heads before it.
    Events { header: Header, count: usize },
    Canceled { header: Header, compact: u64 },
    /// A message that many queues have, with its events.
    Whole(Told),
}
