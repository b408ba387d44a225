ghost use Rattle.std.specs.Prelude.{◌≡◌, ◌<◌, ◌≤◌, ◌-◌, ◌++◌, ◌∷◌, [], length, take, drop, OnOk, OnErr, IfOk};
ghost use Rattle.watch_model.specs.Queues.{chosen, is_progress, item_events};
ghost use Rattle.watch_queue.specs.Heads.{item_of, count_of, shared_of, ends_in_progress, is_without_events};
ghost use Rattle.watch_queue.specs.Shared.{values};
ghost use Rattle.watch_queue.specs.declared.head.Head.TheVariants as head;

use crate::chosen::is_for;
use crate::head::Head;
use circular_buffer::HeapCircularBuffer;
use etcd_types::{Event, Header, List, NoMemory, WatchAsk, WatchItem};
use std::alloc::Global;
use std::sync::Arc;
use told_items::Told;

/// A head and its events, or none of them.
pub fn push_batch(
    heads: &mut HeapCircularBuffer<Head>,
    events: &mut HeapCircularBuffer<Arc<Event, Global>>,
    header: Header,
    batch: &[Arc<Event, Global>],
    from: u64,
    ask: &WatchAsk,
) -> Result<(), NoMemory>
    ensures heads { OnOk result (heads.new.items ≡ heads.old.items ++ head.Events header (length (chosen ask.now from (values batch.now))) ∷ []) }
    ensures events { OnOk result (values events.new.items ≡ values events.old.items ++ chosen ask.now from (values batch.now)) }
    ensures same_heads { OnErr result (heads.new.items ≡ heads.old.items) }
    ensures same_events { OnErr result (values events.new.items ≡ values events.old.items) }
{
    make_room_for_head(heads)?;
    let before = events.len();
    push_all(events, batch, from, ask)?;
    let count = events.len() - before;
    match heads.try_push_back(Head::Events { header, count }) {
        Ok(()) => Ok(()),
        Err(_) => unreachable!(),
    }
}

/// All that are for the watch, or none.
fn push_all(
    events: &mut HeapCircularBuffer<Arc<Event, Global>>,
    batch: &[Arc<Event, Global>],
    from: u64,
    ask: &WatchAsk,
) -> Result<(), NoMemory>
    ensures ok { OnOk result (values events.new.items ≡ values events.old.items ++ chosen ask.now from (values batch.now)) }
    ensures err { OnErr result (values events.new.items ≡ values events.old.items) }
{
    let before = events.len();
    match push_chosen(events, batch, from, ask) {
        Ok(()) => Ok(()),
        Err(e) => {
            events.truncate_back(before);
            Err(e)
        }
    }
}

/// Those that are for the watch, or some of them where memory was wanting.
fn push_chosen(
    events: &mut HeapCircularBuffer<Arc<Event, Global>>,
    batch: &[Arc<Event, Global>],
    from: u64,
    ask: &WatchAsk,
) -> Result<(), NoMemory>
    ensures ok { OnOk result (values events.new.items ≡ values events.old.items ++ chosen ask.now from (values batch.now)) }
    ensures err { OnErr result (take (length events.old.items) (values events.new.items) ≡ values events.old.items) }
{
    for event in batch {
        if is_for(ask, from, event) {
            push_event(events, Arc::try_clone(event)?)?;
        }
    }
    Ok(())
}

fn push_event(
    events: &mut HeapCircularBuffer<Arc<Event, Global>>,
    event: Arc<Event, Global>,
) -> Result<(), NoMemory>
    ensures ok { OnOk result (events.new.items ≡ events.old.items ++ event ∷ []) }
    ensures err { OnErr result (events.new.items ≡ events.old.items) }
{
    make_room_for_event(events)?;
    match events.try_push_back(event) {
        Ok(()) => Ok(()),
        Err(_) => unreachable!(),
    }
}

fn make_room_for_event(events: &mut HeapCircularBuffer<Arc<Event, Global>>) -> Result<(), NoMemory>
    ensures items { events.new.items ≡ events.old.items }
    ensures ok { OnOk result (length events.new.items < events.new.capacity) }
{
    if events.len() >= events.capacity() {
        let capacity = events.capacity();
        events.resize(capacity + capacity / 2 + 4)?;
    }
    Ok(())
}

/// A head without events.
pub fn push_head(heads: &mut HeapCircularBuffer<Head>, head: Head) -> Result<(), NoMemory>
    ensures ok { OnOk result (heads.new.items ≡ heads.old.items ++ head ∷ []) }
    ensures err { OnErr result (heads.new.items ≡ heads.old.items) }
{
    make_room_for_head(heads)?;
    match heads.try_push_back(head) {
        Ok(()) => Ok(()),
        Err(_) => unreachable!(),
    }
}

fn make_room_for_head(heads: &mut HeapCircularBuffer<Head>) -> Result<(), NoMemory>
    ensures items { heads.new.items ≡ heads.old.items }
    ensures ok { OnOk result (length heads.new.items < heads.new.capacity) }
{
    if heads.len() >= heads.capacity() {
        let capacity = heads.capacity();
        heads.resize(capacity + capacity / 2 + 4)?;
    }
    Ok(())
}

/// Whether the last head shown is that of a message without events.
pub fn ends_in_progress(heads: &HeapCircularBuffer<Head>, shown: usize) -> bool
    ensures { result ≡ ends_in_progress heads.now.items shown }
{
    if shown == 0 {
        return false;
    }
    match heads.get(shown - 1) {
        Some(head) => is_without_events(head),
        None => false,
    }
}

fn is_without_events(head: &Head) -> bool
    ensures { result ≡ is_without_events head.now }
{
    match head {
        Head::Events { count, .. } => *count == 0,
        Head::Created(_) | Head::Canceled { .. } => false,
        Head::Whole(told) => is_progress(told.item()),
    }
}

fn is_progress(item: &WatchItem) -> bool
    ensures { result ≡ is_progress item.now }
{
    match item {
        WatchItem::Events { events, .. } => match events.as_slice() {
            [] => true,
            _ => false,
        },
        WatchItem::Created(_) | WatchItem::Canceled { .. } => false,
    }
}

/// The head takes the place of the last shown, and those behind it go.
pub fn put_last(heads: &mut HeapCircularBuffer<Head>, shown: usize, head: Head)
    requires some { 0 < shown }
    requires there { shown ≤ length heads.old.items }
    ensures { heads.new.items ≡ take (shown - 1) heads.old.items ++ head ∷ [] }
{
    let _capacity = heads.capacity();
    heads.truncate_back(shown - 1);
    match heads.try_push_back(head) {
        Ok(()) => {}
        Err(_) => unreachable!(),
    }
}

/// The first events go.
pub fn drop_first(events: &mut HeapCircularBuffer<Arc<Event, Global>>, count: usize)
    ensures { values events.new.items ≡ drop count (values events.old.items) }
{
    let left = events.len().saturating_sub(count);
    events.truncate_front(left);
}

/// The item of the first head. One that many queues have is shared, and not copied.
pub fn item_of(
    alloc: Global,
    events: &HeapCircularBuffer<Arc<Event, Global>>,
    head: &Head,
) -> Result<Told, NoMemory>
    ensures { IfOk result (λ i. i ≡ item_of head.now (values events.now.items)) }
{
    match head {
        Head::Created(header) => Ok(Told::alone(WatchItem::Created(*header))),
        Head::Events { header, count } => Ok(Told::alone(WatchItem::Events {
            header: *header,
            events: copy_first(alloc, events, *count)?,
        })),
        Head::Canceled { header, compact } => Ok(Told::alone(WatchItem::Canceled {
            header: *header,
            compact: *compact,
        })),
        Head::Whole(told) => Ok(told.share(alloc)?),
    }
}

fn copy_first(
    alloc: Global,
    events: &HeapCircularBuffer<Arc<Event, Global>>,
    count: usize,
) -> Result<List<Event>, NoMemory>
    ensures { IfOk result (λ copies. copies ≡ take count (values events.now.items)) }
{
    let mut copies = List::new(alloc);
    for at in 0..count {
        if let Some(event) = events.get(at) {
            copies.push(event.copy(alloc)?)?;
        }
    }
    Ok(copies)
}

/// How many of the ring's events are the head's.
pub fn count_of(head: &Head) -> usize
    ensures { result ≡ count_of head.now }
{
    match head {
        Head::Events { count, .. } => *count,
        Head::Created(_) | Head::Canceled { .. } | Head::Whole(_) => 0,
    }
}

/// How many events a head has that are in no ring.
pub fn shared_of(head: &Head) -> usize
    ensures { result ≡ shared_of head.now }
{
    match head {
        Head::Whole(told) => event_count(told.item()),
        Head::Created(_) | Head::Events { .. } | Head::Canceled { .. } => 0,
    }
}

/// How many events a message has.
pub fn event_count(item: &WatchItem) -> usize
    ensures { result ≡ length (item_events item.now) }
{
    match item {
        WatchItem::Events { events, .. } => events.len(),
        WatchItem::Created(_) | WatchItem::Canceled { .. } => 0,
    }
}
