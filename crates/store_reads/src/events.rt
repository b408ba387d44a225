ghost use Rattle.std.specs.Prelude.{◌≡◌, ◌≤◌, ◌<◌, ◌-◌, ◌+◌, ◌^◌, true, if◌then◌else◌, [], ◌++◌, length, get_or, IfOk, OnOk};
ghost use Rattle.std.specs.Option.{option_copied};
ghost use Rattle.etcd_types.specs.Ranges.{is_one};
ghost use Rattle.store_model.specs.History.{History};
ghost use Rattle.store_model.specs.Events.{watch_events};
ghost use Rattle.store_model.specs.Watches.{next_after};
ghost use Rattle.store_history.specs.Batches.{told_prev};
ghost use Rattle.compaction_model.specs.Places.{changed_keys};
ghost use Rattle.store_index.specs.Index.{HoldsKept};
ghost use Rattle.store_reads.specs.Places.{ArePassed};
ghost use Rattle.store_reads.specs.Told.{left_change, left_passes, told_left, left_to_tell};

use crate::places::{Counts, first_from};
use etcd_types::{Bytes, Change, Event, Kv, List, NoMemory, WatchAsk};
use std::alloc::Global;
use store_history::Batch;
use store_index::{Index, left_now};

/// The events of a watch from a revision on, which can still be read. Where there is none, it goes on from that revision. A watch
/// of one key costs what its versions from there on do, and any other one what the revisions from there on do.
pub fn watch_events(
    alloc: Global,
    index: &Index,
    ask: &WatchAsk,
    from: u64,
) -> Result<Batch, NoMemory>
    requires { index.now.compacted ≤ from }
    ensures events { IfOk result (λ batch. (h : History) → HoldsKept index.now h → batch.events ≡ watch_events h index.now.compacted ask.now from) }
    ensures next { IfOk result (λ batch. (h : History) → HoldsKept index.now h → batch.next ≡ next_after from batch.events) }
{
    if ask.range.is_one() {
        Ok(key_events(alloc, index, ask, from)?)
    } else {
        Ok(range_events(alloc, index, ask, from)?)
    }
}

/// The same for a watch of one key: only those revisions are looked at that have a version of it.
fn key_events(alloc: Global, index: &Index, ask: &WatchAsk, from: u64) -> Result<Batch, NoMemory>
    requires one { is_one ask.now.range ≡ true }
    requires from { index.now.compacted ≤ from }
    ensures events { IfOk result (λ batch. (h : History) → HoldsKept index.now h → batch.events ≡ watch_events h index.now.compacted ask.now from) }
    ensures next { IfOk result (λ batch. (h : History) → HoldsKept index.now h → batch.next ≡ next_after from batch.events) }
{
    let mut batch = Batch {
        events: List::new(alloc),
        next: from,
    };
    let versions = index.kept_versions(&ask.range.key);
    let mut revision = from.max(2);
    let mut at = first_from(versions, revision);
    while at < versions.len() {
        let changed = versions[at].revision;
        add_events(alloc, &mut batch, index, ask, changed)?;
        revision = changed + 1;
        at = first_from(versions, revision);
    }
    Ok(batch)
}

/// The same for any watch: each revision is looked at.
fn range_events(alloc: Global, index: &Index, ask: &WatchAsk, from: u64) -> Result<Batch, NoMemory>
    requires { index.now.compacted ≤ from }
    ensures events { IfOk result (λ batch. (h : History) → HoldsKept index.now h → batch.events ≡ watch_events h index.now.compacted ask.now from) }
    ensures next { IfOk result (λ batch. (h : History) → HoldsKept index.now h → batch.next ≡ next_after from batch.events) }
{
    let mut batch = Batch {
        events: List::new(alloc),
        next: from,
    };
    for revision in from.max(2)..index.newest + 1 {
        add_events(alloc, &mut batch, index, ask, revision)?;
    }
    Ok(batch)
}

/// Adds what the watch is told of one revision.
fn add_events(
    alloc: Global,
    batch: &mut Batch,
    index: &Index,
    ask: &WatchAsk,
    revision: u64,
) -> Result<(), NoMemory>
    requires first { 2 ≤ revision }
    requires from { index.now.compacted ≤ revision }
    requires last { revision ≤ index.now.newest }
    ensures events { OnOk result ((h : History) → HoldsKept index.now h
        → batch.new.events ≡ batch.old.events ++ left_to_tell index.now.compacted ask.now h revision 0) }
    ensures next { OnOk result ((h : History) → HoldsKept index.now h
        → batch.new.next ≡ next_after batch.old.next (left_to_tell index.now.compacted ask.now h revision 0)) }
{
    let changed = index.changed_at(revision)?;
    let keys = changed.as_slice();
    let mut passed = Counts::new(alloc);
    for place in 0..keys.len() {
        tell_change(alloc, batch, index, ask, revision, keys, place, &mut passed)?;
    }
    Ok(())
}

/// Adds what the watch is told of the change at this place of a revision, where `keys` are those that it changed and `passed`
/// counts those before the place.
fn tell_change(
    alloc: Global,
    batch: &mut Batch,
    index: &Index,
    ask: &WatchAsk,
    revision: u64,
    keys: &[Bytes],
    place: usize,
    passed: &mut Counts,
) -> Result<(), NoMemory>
    requires first { 2 ≤ revision }
    requires from { index.now.compacted ≤ revision }
    requires last { revision ≤ index.now.newest }
    requires keys { (h : History) → HoldsKept index.now h → keys.now ≡ changed_keys (get_or h (revision - 2) []) }
    requires place { place < length keys.now }
    requires fits { length keys.now < 2 ^ 64 }
    requires passed { ArePassed ask.now.range passed.old keys.now place }
    ensures passed { OnOk result (ArePassed ask.now.range passed.new keys.now (place + 1)) }
    ensures events { OnOk result ((h : History) → HoldsKept index.now h
        → batch.new.events ++ left_to_tell index.now.compacted ask.now h revision (place + 1) ≡ batch.old.events ++ left_to_tell index.now.compacted ask.now h revision place) }
    ensures next { OnOk result ((h : History) → HoldsKept index.now h
        → next_after batch.new.next (left_to_tell index.now.compacted ask.now h revision (place + 1))
        ≡ next_after batch.old.next (left_to_tell index.now.compacted ask.now h revision place)) }
{
    let key = &keys[place];
    if !ask.range.contains(key) {
        return Ok(());
    }
    let versions = index.kept_versions(key);
    let first = first_from(versions, revision);
    let at = first + passed.pass(key, versions, first, revision)?;
    let left = versions[at].left.as_ref();
    let old = left_now(&versions[..at]);
    add_event(alloc, batch, index.compacted, ask, revision, key, left, old)?;
    Ok(())
}

/// Adds what the watch is told of a change that left this, where `old` was there before.
fn add_event(
    alloc: Global,
    batch: &mut Batch,
    compacted: u64,
    ask: &WatchAsk,
    revision: u64,
    key: &Bytes,
    left: Option<&Kv>,
    old: Option<&Kv>,
) -> Result<(), NoMemory>
    requires { revision ≤ 2 ^ 63 }
    ensures events { OnOk result (batch.new.events ≡ batch.old.events ++ told_left compacted ask.now revision key.now (option_copied old.entry) (option_copied left.entry)) }
    ensures next { OnOk result (batch.new.next ≡ (if left_passes ask.now (option_copied left.entry) then revision + 1 else batch.old.next)) }
{
    if !left_passes(ask, left) {
        return Ok(());
    }
    let event = Event {
        change: left_change(alloc, revision, key, left)?,
        prev: told_prev(alloc, compacted, ask.prev_kv, revision, old)?,
    };
    batch.events.push(event)?;
    batch.next = revision + 1;
    Ok(())
}

/// Whether the watch is told of a change that left this.
fn left_passes(ask: &WatchAsk, left: Option<&Kv>) -> bool
    ensures { result ≡ left_passes ask.now (option_copied left.entry) }
{
    match left {
        Some(_) => !ask.no_put,
        None => !ask.no_delete,
    }
}

fn left_change(
    alloc: Global,
    revision: u64,
    key: &Bytes,
    left: Option<&Kv>,
) -> Result<Change, NoMemory>
    ensures { IfOk result (λ change. change ≡ left_change revision key.now (option_copied left.entry)) }
{
    match left {
        Some(record) => Ok(Change::Put(record.copy(alloc)?)),
        None => Ok(Change::Delete {
            key: key.copy(alloc)?,
            modified: revision,
        }),
    }
}

/// The record before a change, where it was asked for and was not compacted.
fn told_prev(
    alloc: Global,
    compacted: u64,
    asked: bool,
    revision: u64,
    old: Option<&Kv>,
) -> Result<Option<Kv>, NoMemory>
    ensures { IfOk result (λ prev. prev ≡ told_prev compacted asked revision (option_copied old.entry)) }
{
    match old {
        None => Ok(None),
        Some(record) => {
            if asked && (compacted < revision || compacted <= record.modified) {
                Ok(Some(record.copy(alloc)?))
            } else {
                Ok(None)
            }
        }
    }
}
