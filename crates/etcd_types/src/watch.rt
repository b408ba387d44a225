ghost use Rattle.std.specs.Prelude.{◌≡◌, IfOk};

use crate::answer::copy_record;
use crate::bytes::Bytes;
use crate::list::List;
use crate::no_memory::NoMemory;
use crate::record::{Header, Kv};
use std::alloc::Global;

/// What an event tells: the record after a put, or the key and the revision of its deletion.
#[derive(Debug, PartialEq, Eq, Drop)]
pub enum Change {
    Put(Kv),
    Delete { key: Bytes, modified: u64 },
}

/// `mvccpb.Event`: a change, with the record before it where that was asked for and is there.
#[derive(Debug, PartialEq, Eq, Drop)]
pub struct Event {
    pub change: Change,
    /// The record before the change.
    pub prev: Option<Kv>,
}

/// A message of a watch (`etcdserverpb.WatchResponse`).
#[derive(Debug, PartialEq, Eq, Drop)]
pub enum WatchItem {
    /// The first message of a watch.
    Created(Header),
    /// Events in order of revision. One without events tells how far the watch has come.
    Events { header: Header, events: List<Event> },
    /// The end of the watch; `compact` is the compaction revision that it fell behind, or 0.
    Canceled { header: Header, compact: u64 },
}

impl Change {
    /// A copy, or `NoMemory` where memory was wanting.
    pub fn copy(&self, alloc: Global) -> Result<Change, NoMemory>
        ensures { IfOk result (λ change. change ≡ self.now) }
    {
        match self {
            Change::Put(kv) => Ok(Change::Put(kv.copy(alloc)?)),
            Change::Delete { key, modified } => Ok(Change::Delete {
                key: key.copy(alloc)?,
                modified: *modified,
            }),
        }
    }
}

impl Event {
    /// A copy, or `NoMemory` where memory was wanting.
    pub fn copy(&self, alloc: Global) -> Result<Event, NoMemory>
        ensures { IfOk result (λ event. event ≡ self.now) }
    {
        Ok(Event {
            change: self.change.copy(alloc)?,
            prev: copy_record(alloc, &self.prev)?,
        })
    }
}

impl WatchItem {
    /// A copy, or `NoMemory` where memory was wanting.
    pub fn copy(&self, alloc: Global) -> Result<WatchItem, NoMemory>
        ensures { IfOk result (λ item. item ≡ self.now) }
    {
        match self {
            WatchItem::Created(header) => Ok(WatchItem::Created(*header)),
            WatchItem::Events { header, events } => Ok(WatchItem::Events {
                header: *header,
                events: copy_events(alloc, events)?,
            }),
            WatchItem::Canceled { header, compact } => Ok(WatchItem::Canceled {
                header: *header,
                compact: *compact,
            }),
        }
    }
}

fn copy_events(alloc: Global, events: &List<Event>) -> Result<List<Event>, NoMemory>
    ensures { IfOk result (λ copies. copies ≡ events.now) }
{
    let mut copies = List::new(alloc);
    for event in events.as_slice() {
        copies.push(event.copy(alloc)?)?;
    }
    Ok(copies)
}
