// Events that aren't next for the watch that takes them.

use crate::reads::namespace_of;
use crate::said::{Said, filled, tell, tell_found};
use audit_past::{Past, Watch, count_taken, event_behind, event_revision, start_of};
use equal_values::{same_change, same_event};
use etcd_types::{Event, Header, List, NoMemory, WatchAsk, WatchItem};
use namespace_keys::{KeyFault, Namespace};
use script_text::Item;
use std::alloc::Global;

/// The message with the event alone, as the watch is told it. Nothing where its key isn't in the namespace.
fn told_event(
    alloc: Global,
    namespace: &Namespace,
    ask: &WatchAsk,
    header: Header,
    event: &Event,
) -> Result<Option<WatchItem>, NoMemory> {
    let mut due = event.copy(alloc)?;
    if !ask.prev_kv {
        due.prev = None;
    }
    let mut events = List::new(alloc);
    events.push(due)?;
    match namespace.unwrap_item(alloc, WatchItem::Events { header, events }) {
        Ok(message) => Ok(Some(message)),
        Err(KeyFault::NoMemory) => Err(NoMemory),
        Err(_) => Ok(None),
    }
}

/// In what an event differs from the one that is due.
fn event_difference(
    alloc: Global,
    ask: &WatchAsk,
    told: &Event,
    due: &Event,
) -> Result<Vec<u8>, NoMemory> {
    let (shown, held) = (event_revision(told), event_revision(due));
    if shown != held {
        return filled(
            alloc,
            "the watch's next event is of revision #, the message brings one of revision #",
            &[held, shown],
        );
    }
    if !same_change(&told.change, &due.change) {
        return filled(
            alloc,
            "the watch's next event is another one of revision #",
            &[held],
        );
    }
    if !ask.prev_kv {
        return filled(
            alloc,
            "the event of revision # brings the record before it, which the watch didn't ask for",
            &[held],
        );
    }
    filled(
        alloc,
        "the record before the event of revision # isn't the one that the store had",
        &[held],
    )
}

/// Whether the event may be told without the record before it, or tells it.
fn is_same(told: &Event, due: &Event, compacted: u64) -> bool {
    if same_event(told, due) {
        return true;
    }
    let is_hidden = match &due.prev {
        Some(kv) => event_revision(due) <= compacted && kv.modified < compacted,
        None => false,
    };
    told.prev.is_none() && is_hidden && same_change(&told.change, &due.change)
}

fn first_event(message: &WatchItem) -> Option<&Event> {
    match message {
        WatchItem::Events { events, .. } => events.as_slice().first(),
        _ => None,
    }
}

/// What is said of an event in the place of this one, the first of the message.
fn other_event(
    alloc: Global,
    past: &Past,
    watch: Watch,
    ask: &WatchAsk,
    told: &Event,
    due: &Event,
    message: &WatchItem,
) -> Result<Said, NoMemory> {
    let made = past.made_at(event_revision(due));
    let found = event_difference(alloc, ask, told, due)?;
    let places = [watch.asked, watch.first, watch.latest, made];
    let mut all = tell_found(alloc, found, &places)?;
    all.expect_message(alloc, "taken", &[watch.proxy, watch.ticket], message)?;
    Ok(all)
}

/// What is said of an event where this message is due, if it isn't the same.
fn event_said(
    alloc: Global,
    past: &Past,
    watch: Watch,
    ask: &WatchAsk,
    told: &Event,
    message: &WatchItem,
) -> Result<Option<Said>, NoMemory> {
    match first_event(message) {
        None => Ok(None),
        Some(due) => {
            if is_same(told, due, past.compacted()) {
                Ok(None)
            } else {
                Ok(Some(other_event(alloc, past, watch, ask, told, due, message)?))
            }
        }
    }
}

/// An event for which the store has none.
fn surplus_said(alloc: Global, watch: Watch, told: &Event) -> Result<Said, NoMemory> {
    let shown = event_revision(told);
    tell(
        alloc,
        "the store has no further event for the watch, the message brings one of revision #",
        &[shown],
        &[watch.asked, watch.first, watch.latest],
    )
}

/// What is said of an event of the message, where it isn't the watch's next one.
fn next_said(
    alloc: Global,
    past: &Past,
    namespace: &Namespace,
    watch: Watch,
    ask: &WatchAsk,
    header: Header,
    told: &Event,
    due: Option<&Event>,
) -> Result<Option<Said>, NoMemory> {
    match due {
        None => Ok(Some(surplus_said(alloc, watch, told)?)),
        Some(due) => match told_event(alloc, namespace, ask, header, due)? {
            Some(message) => event_said(alloc, past, watch, ask, told, &message),
            None => Ok(None),
        },
    }
}

/// Events that aren't the next ones of the watch, whose events the past holds.
fn other_events(
    alloc: Global,
    items: &[Item],
    past: &Past,
    namespace: &Namespace,
    watch: Watch,
    ask: &WatchAsk,
    header: Header,
    events: &[Event],
) -> Result<Said, NoMemory> {
    let start = start_of(items, watch, ask);
    let taken = count_taken(items, watch);
    for (number, told) in events.iter().enumerate() {
        let due = event_behind(past.events(), start, taken.saturating_add(number));
        if let Some(all) = next_said(alloc, past, namespace, watch, ask, header, told, due)? {
            return Ok(all);
        }
    }
    let places = [watch.asked, watch.latest];
    tell(
        alloc,
        "the message brings other events than the store has",
        &[],
        &places,
    )
}

/// Events that aren't the watch's next ones.
pub(crate) fn events_said(
    alloc: Global,
    items: &[Item],
    past: &mut Past,
    watch: Watch,
    ask: &WatchAsk,
    header: Header,
    events: &[Event],
) -> Result<Said, NoMemory> {
    past.read_for(items, ask)?;
    let namespace = namespace_of(alloc, items)?;
    other_events(alloc, items, past, &namespace, watch, ask, header, events)
}
