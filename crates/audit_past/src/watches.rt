// What the items tell of a watch.

use crate::traces::item_at;
use etcd_types::{Bytes, Change, Event, NoMemory, WatchAsk, WatchItem};
use namespace_keys::range_under;
use script_text::Item;
use std::alloc::Global;

/// A watch: its proxy and ticket, where it was asked, and where its first and its last message so far were taken.
#[derive(Clone, Copy)]
pub struct Watch {
    pub proxy: u64,
    pub ticket: u64,
    pub asked: Option<usize>,
    pub first: Option<usize>,
    pub latest: Option<usize>,
}

fn change_revision(change: &Change) -> u64 {
    match change {
        Change::Put(kv) => kv.modified,
        Change::Delete { modified, .. } => *modified,
    }
}

pub fn event_revision(event: &Event) -> u64 {
    change_revision(&event.change)
}

/// The message that a watch takes at the place.
pub fn message_at(items: &[Item], place: Option<usize>) -> Option<&WatchItem> {
    match item_at(items, place) {
        Some(Item::Taken { item, .. }) => Some(item),
        _ => None,
    }
}

pub fn is_created(message: &WatchItem) -> bool {
    match message {
        WatchItem::Created(_) => true,
        _ => false,
    }
}

/// The message that the item gives to the watch.
fn taken_by(watch: Watch, item: &Item) -> Option<&WatchItem> {
    match item {
        Item::Taken {
            proxy,
            ticket,
            item,
        } => {
            if *proxy == watch.proxy && *ticket == watch.ticket {
                Some(item)
            } else {
                None
            }
        }
        _ => None,
    }
}

/// The items from that on with which the watch was asked.
fn items_since(items: &[Item], asked: Option<usize>) -> &[Item] {
    match asked {
        Some(place) => items.get(place..).unwrap_or(&[]),
        None => &[],
    }
}

/// The revision from which the watch has events.
pub fn start_of(items: &[Item], watch: Watch, ask: &WatchAsk) -> u64 {
    if ask.start != 0 {
        return ask.start;
    }
    match message_at(items, watch.first) {
        Some(WatchItem::Created(header)) => header.revision.saturating_add(1),
        _ => 0,
    }
}

fn count_events(message: &WatchItem) -> usize {
    match message {
        WatchItem::Events { events, .. } => events.len(),
        _ => 0,
    }
}

/// How many events the watch has taken.
pub fn count_taken(items: &[Item], watch: Watch) -> usize {
    let mut count = 0usize;
    for item in items_since(items, watch.asked) {
        if let Some(message) = taken_by(watch, item) {
            count = count.saturating_add(count_events(message));
        }
    }
    count
}

/// The least revision that can still come behind the message.
fn next_behind(next: u64, message: &WatchItem) -> u64 {
    match message {
        WatchItem::Events { header, events } => match events.as_slice().last() {
            Some(event) => next.max(event_revision(event).saturating_add(1)),
            None => next.max(header.revision.saturating_add(1)),
        },
        _ => next,
    }
}

/// The least revision that can still come to the watch.
pub fn next_of(items: &[Item], watch: Watch, start: u64) -> u64 {
    let mut next = start;
    for item in items_since(items, watch.asked) {
        if let Some(message) = taken_by(watch, item) {
            next = next_behind(next, message);
        }
    }
    next
}

/// The watch as it looks at the store: an empty key is read as one zero byte, and records before changes are asked for.
pub(crate) fn stored_watch(
    alloc: Global,
    namespace: &Bytes,
    ask: &WatchAsk,
) -> Result<WatchAsk, NoMemory> {
    let mut stored = ask.copy(alloc)?;
    if stored.range.key.is_empty() {
        stored.range.key = Bytes::from_slice(alloc, &[0])?;
    }
    stored.range = range_under(alloc, namespace, &stored.range)?;
    stored.start = 1;
    stored.prev_kv = true;
    stored.progress = true;
    Ok(stored)
}

/// The bytes of the world's namespace.
pub(crate) fn prefix_of(alloc: Global, items: &[Item]) -> Result<Bytes, NoMemory> {
    match items.first() {
        Some(Item::World { namespace, .. }) => namespace.copy(alloc),
        _ => Ok(Bytes::new(alloc)),
    }
}

/// The event behind so many of those from the start on.
pub fn event_behind(events: &[Event], start: u64, skip: usize) -> Option<&Event> {
    let first = events
        .iter()
        .position(|event| start <= event_revision(event))?;
    events.get(first.saturating_add(skip))
}
