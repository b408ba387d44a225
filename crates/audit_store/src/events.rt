ghost use Rattle.std.specs.Prelude.{◌≡◌, map, IfOk};
ghost use Rattle.store_model.specs.History.{History};
ghost use Rattle.store_model.specs.Events.{change_revision as revision_of_change, event_revision as revision_of, visible_prev as prev_visible, watch_events as events_of_watch};
ghost use Rattle.store_model.specs.Watches.{next_after};
ghost use Rattle.store_index.specs.Index.{HoldsKept};
ghost use Rattle.audit_store.specs.Visible.{visible_event as event_visible};

use etcd_types::{Change, Event, Kv, List, NoMemory, WatchAsk};
use std::alloc::Global;
use store_history::Batch;
use store_index::Index;
use store_reads::watch_events;

/// The events of a watch from a revision on, each with the record before it where that was asked for and can still be seen at this
/// compaction. Where there is none, it goes on from that revision.
pub(crate) fn visible_events(
    alloc: Global,
    index: &Index,
    compacted: u64,
    ask: &WatchAsk,
    from: u64,
) -> Result<Batch, NoMemory>
    requires { index.now.compacted ≡ 0 }
    ensures events { IfOk result (λ batch. (h : History) → HoldsKept index.now h → batch.events ≡ events_of_watch h compacted ask.now from) }
    ensures next { IfOk result (λ batch. (h : History) → HoldsKept index.now h → batch.next ≡ next_after from batch.events) }
{
    let all = watch_events(alloc, index, ask, from)?;
    let events = all_visible(alloc, compacted, all.events.as_slice())?;
    Ok(Batch {
        events,
        next: all.next,
    })
}

/// These events, each with what can be seen of the record before it.
fn all_visible(alloc: Global, compacted: u64, events: &[Event]) -> Result<List<Event>, NoMemory>
    ensures { IfOk result (λ visible. visible ≡ map (event_visible compacted) events.now) }
{
    let mut visible = List::new(alloc);
    for event in events {
        visible.push(visible_event(alloc, compacted, event)?)?;
    }
    Ok(visible)
}

fn visible_event(alloc: Global, compacted: u64, event: &Event) -> Result<Event, NoMemory>
    ensures { IfOk result (λ visible. visible ≡ event_visible compacted event.now) }
{
    let prev = visible_prev(
        alloc,
        compacted,
        change_revision(&event.change),
        &event.prev,
    )?;
    Ok(Event {
        change: event.change.copy(alloc)?,
        prev,
    })
}

fn change_revision(change: &Change) -> u64
    ensures { result ≡ revision_of_change change.now }
{
    match change {
        Change::Put(kv) => kv.modified,
        Change::Delete { modified, .. } => *modified,
    }
}

/// The record before a change at this revision, where it wasn't compacted.
fn visible_prev(
    alloc: Global,
    compacted: u64,
    revision: u64,
    prev: &Option<Kv>,
) -> Result<Option<Kv>, NoMemory>
    ensures { IfOk result (λ visible. visible ≡ prev_visible compacted revision prev.now) }
{
    match prev {
        None => Ok(None),
        Some(record) => {
            if compacted < revision || compacted <= record.modified {
                Ok(Some(record.copy(alloc)?))
            } else {
                Ok(None)
            }
        }
    }
}
