ghost use Rattle.std.specs.Prelude.{◌≡◌, length};
ghost use Rattle.store_model.specs.Events.{change_revision, change_passes, event_revision};
ghost use Rattle.watch_model.specs.Queues.{is_for, chosen};
ghost use Rattle.watch_queue.specs.Shared.{values};

use etcd_types::{Change, Event, WatchAsk};
use std::alloc::Global;
use std::sync::Arc;

/// How many events of a batch are for the watch.
pub fn chosen_count(batch: &[Arc<Event, Global>], from: u64, ask: &WatchAsk) -> usize
    ensures { result ≡ length (chosen ask.now from (values batch.now)) }
{
    let mut count = 0;
    for event in batch {
        if is_for(ask, from, event) {
            count += 1;
        }
    }
    count
}

/// Whether a watch with this next is given the event.
pub fn is_for(ask: &WatchAsk, from: u64, event: &Event) -> bool
    ensures { result ≡ is_for ask.now from event.now }
{
    from <= change_revision(&event.change) && passes(ask, &event.change)
}

fn passes(ask: &WatchAsk, change: &Change) -> bool
    ensures { result ≡ change_passes ask.now change.now }
{
    match change {
        Change::Put(_) => !ask.no_put,
        Change::Delete { .. } => !ask.no_delete,
    }
}

fn change_revision(change: &Change) -> u64
    ensures { result ≡ change_revision change.now }
{
    match change {
        Change::Put(kv) => kv.modified,
        Change::Delete { modified, .. } => *modified,
    }
}

/// The revision at which an event came about.
pub fn revision_of(event: &Event) -> u64
    ensures { result ≡ event_revision event.now }
{
    change_revision(&event.change)
}
