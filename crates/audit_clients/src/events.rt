ghost use Rattle.std.specs.Prelude.{◌≡◌, ◌≤◌, not, is_some, filter, drop, IfOk};
ghost use Rattle.audit_clients.specs.Stored.{prev_is_gone, with_prev};
ghost use Rattle.audit_clients.specs.Spots.{are_behind, has_come};
ghost use Rattle.audit_model.specs.Takes.{tells_event as is_told_event, tells_front as is_told_front, tells_prev as is_told_prev};
ghost use Rattle.store_model.specs.Events.{change_revision as revision_of_change, event_revision as revision_of};
ghost use Rattle.store_model.specs.State.{State};
ghost use Rattle.audit_store.specs.Store.{Stands};
ghost use Rattle.world_model.specs.Received.{history_events as events_for, is_from as is_from_start};

use crate::keys::{stored_change, stored_record, watched_range};
use audit_store::Store;
use equal_values::{same_change, same_prev};
use etcd_types::{Bytes, Change, Event, Kv, List, NoMemory, WatchAsk};
use namespace_keys::range_under;
use std::alloc::Global;

/// The last number of 64 bits.
const LAST_NUMBER: u64 = 0xffff_ffff_ffff_ffff;

fn change_revision(change: &Change) -> u64
    ensures { result ≡ revision_of_change change.now }
{
    match change {
        Change::Put(kv) => kv.modified,
        Change::Delete { modified, .. } => *modified,
    }
}

pub(crate) fn event_revision(event: &Event) -> u64
    ensures { result ≡ revision_of event.now }
{
    change_revision(&event.change)
}

/// What the store's own watch asks for: the same events, each with the record before it.
fn asked_with_prev(alloc: Global, namespace: &Bytes, ask: &WatchAsk) -> Result<WatchAsk, NoMemory>
    ensures { IfOk result (λ asked. asked ≡ with_prev namespace.now ask.now) }
{
    let mut asked = ask.copy(alloc)?;
    let range = watched_range(alloc, &ask.range)?;
    asked.range = range_under(alloc, namespace, &range)?;
    asked.prev_kv = true;
    Ok(asked)
}

/// The events from this revision on.
fn events_from(alloc: Global, events: &[Event], start: u128) -> Result<List<Event>, NoMemory>
    ensures { IfOk result (λ from. from ≡ filter (is_from_start start) events.now) }
{
    let mut from = List::new(alloc);
    for event in events {
        if start <= u128::from(event_revision(event)) {
            from.push(event.copy(alloc)?)?;
        }
    }
    Ok(from)
}

/// The revision, or the last number of 64 bits where it is above that.
fn clipped(revision: u128) -> u64
    ensures { result ≤ revision }
{
    if revision < u128::from(LAST_NUMBER) {
        revision as u64
    } else {
        LAST_NUMBER
    }
}

/// What the history has for the watch from its start, with the records before, compacted or not.
pub(crate) fn history_events(
    alloc: Global,
    store: &Store,
    namespace: &Bytes,
    ask: &WatchAsk,
    start: u128,
) -> Result<List<Event>, NoMemory>
    ensures { IfOk result (λ events. (s : State) → Stands store.now s → events ≡ events_for s.history namespace.now ask.now start) }
{
    let asked = asked_with_prev(alloc, namespace, ask)?;
    let events = store.events(&asked, clipped(start))?;
    Ok(events_from(alloc, events.as_slice(), start)?)
}

/// Whether the record before the event can't be seen any more, or wasn't there.
fn is_gone(compacted: u64, event: &Event) -> bool
    ensures { result ≡ prev_is_gone compacted event.now }
{
    match &event.prev {
        None => true,
        Some(kv) => {
            if compacted < event_revision(event) || compacted <= kv.modified {
                false
            } else {
                true
            }
        }
    }
}

fn is_absent(told: &Option<Kv>) -> bool
    ensures { result ≡ not (is_some told.now) }
{
    match told {
        None => true,
        Some(_) => false,
    }
}

/// Whether the record before the event is told where it was asked for, and left out only where it can't be seen.
fn tells_prev(
    alloc: Global,
    prev_kv: bool,
    compacted: u64,
    namespace: &Bytes,
    told: &Option<Kv>,
    event: &Event,
) -> Result<bool, NoMemory>
    ensures { IfOk result (λ so. so ≡ is_told_prev prev_kv compacted namespace.now told.now event.now) }
{
    if !prev_kv {
        return Ok(is_absent(told));
    }
    match told {
        None => Ok(is_gone(compacted, event)),
        Some(kv) => {
            let stored = Some(stored_record(alloc, namespace, kv)?);
            Ok(same_prev(&stored, &event.prev))
        }
    }
}

/// Whether the event is told.
fn tells_event(
    alloc: Global,
    prev_kv: bool,
    compacted: u64,
    namespace: &Bytes,
    told: &Event,
    event: &Event,
) -> Result<bool, NoMemory>
    ensures { IfOk result (λ so. so ≡ is_told_event prev_kv compacted namespace.now told.now event.now) }
{
    let stored = stored_change(alloc, namespace, &told.change)?;
    if !same_change(&stored, &event.change) {
        return Ok(false);
    }
    Ok(tells_prev(alloc, prev_kv, compacted, namespace, &told.prev, event)?)
}

/// Whether these tell the first ones of what is due, each at its place.
fn tells_front(
    alloc: Global,
    prev_kv: bool,
    compacted: u64,
    namespace: &Bytes,
    told: &[Event],
    due: &[Event],
) -> Result<bool, NoMemory>
    ensures { IfOk result (λ so. so ≡ is_told_front prev_kv compacted namespace.now told.now due.now) }
{
    for (place, one) in told.iter().enumerate() {
        if place >= due.len() {
            return Ok(false);
        }
        if !tells_event(alloc, prev_kv, compacted, namespace, one, &due[place])? {
            return Ok(false);
        }
    }
    Ok(true)
}

/// Whether these are the next of the watch's events, where it took so many of this revision, and all before.
pub(crate) fn goes_on(
    alloc: Global,
    store: &Store,
    namespace: &Bytes,
    ask: &WatchAsk,
    revision: u128,
    count: u64,
    new: &[Event],
) -> Result<bool, NoMemory>
    ensures { IfOk result (λ so. (s : State) → Stands store.now s → so ≡ is_told_front ask.now.prev_kv s.compacted namespace.now new.now (drop count (events_for s.history namespace.now ask.now revision))) }
{
    let due = history_events(alloc, store, namespace, ask, revision)?;
    Ok(tells_front(
        alloc,
        ask.prev_kv,
        store.compacted(),
        namespace,
        new,
        behind(due.as_slice(), count),
    )?)
}

/// The events behind so many, where there are as many.
fn behind(events: &[Event], count: u64) -> &[Event]
    ensures { result.now ≡ drop count events.now }
{
    if count < events.len() as u64 {
        &events[count as usize..]
    } else {
        &[]
    }
}

/// Whether these events, of which the revisions don't fall, all come later than this revision.
fn come_later(events: &[Event], revision: u64) -> bool
    ensures { result ≡ are_behind revision events.now }
{
    match events {
        [] => true,
        [first, ..] => revision < event_revision(first),
    }
}

/// Whether no event up to this one is left to the watch, where it took so many of its last revision, and all before.
pub(crate) fn has_come(
    alloc: Global,
    store: &Store,
    namespace: &Bytes,
    ask: &WatchAsk,
    revision: u128,
    count: u64,
    up_to: u64,
) -> Result<bool, NoMemory>
    ensures { IfOk result (λ so. (s : State) → Stands store.now s → so ≡ has_come (revision, count) up_to (drop count (events_for s.history namespace.now ask.now revision))) }
{
    let due = history_events(alloc, store, namespace, ask, revision)?;
    let is_later = come_later(behind(due.as_slice(), count), up_to);
    Ok((count == 0 || revision <= u128::from(up_to)) && is_later)
}
