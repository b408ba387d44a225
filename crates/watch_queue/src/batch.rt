ghost use Rattle.std.specs.Prelude.{◌≡◌, map, false, IfOk};
ghost use Rattle.watch_queue.specs.Shared.{values};
ghost use Rattle.watch_model.specs.Delivery.{shown_event, shown_events};

use etcd_types::{Event, List, NoMemory, WatchAsk};
use std::alloc::Global;
use std::marker::Model;
use std::sync::Arc;

/// A batch as it is shared by the queues: with the records before the changes, and without them.
#[derive(Drop)]
pub struct Batch {
    whole: Vec<Arc<Event, Global>>,
    bare: Vec<Arc<Event, Global>>,
}

impl Model for Batch {
    ghost use Rattle.std.specs.Prelude.{◌≡◌, List, map, false};
    ghost use Rattle.etcd_types.specs.declared.watch.Event.{Event};
    ghost use Rattle.watch_queue.specs.Shared.{values};
    ghost use Rattle.watch_model.specs.Delivery.{shown_event};

    ghost Value = { List Event };

    ghost view = { λ b. values b.whole.items };

    ghost invariant = { λ b. values b.bare.items ≡ map (shown_event false) (values b.whole.items) };
}

impl Batch {
    /// The events as they came, shared.
    pub fn new(alloc: Global, events: &List<Event>) -> Result<Batch, NoMemory>
        ensures { IfOk result (λ b. b ≡ events.now) }
    {
        Ok(Batch {
            whole: share(alloc, events)?,
            bare: share_bare(alloc, events)?,
        })
    }

    /// The events with the records before the changes.
    pub fn whole(&self) -> &[Arc<Event, Global>]
        ensures { values result.now ≡ self.now }
    {
        &self.whole
    }

    /// The events without those.
    pub fn bare(&self) -> &[Arc<Event, Global>]
        ensures { values result.now ≡ map (shown_event false) self.now }
    {
        &self.bare
    }

    /// The events as the watch asked for them.
    pub fn events_for(&self, ask: &WatchAsk) -> &[Arc<Event, Global>]
        ensures { values result.now ≡ shown_events ask.now self.now }
    {
        if ask.prev_kv {
            self.whole()
        } else {
            self.bare()
        }
    }
}

fn share(alloc: Global, events: &List<Event>) -> Result<Vec<Arc<Event, Global>>, NoMemory>
    ensures { IfOk result (λ v. values v.items ≡ events.now) }
{
    let mut shared = Vec::new(alloc);
    for event in events.as_slice() {
        shared.push(Arc::new(alloc, event.copy(alloc)?)?)?;
    }
    Ok(shared)
}

fn share_bare(alloc: Global, events: &List<Event>) -> Result<Vec<Arc<Event, Global>>, NoMemory>
    ensures { IfOk result (λ v. values v.items ≡ map (shown_event false) events.now) }
{
    let mut shared = Vec::new(alloc);
    for event in events.as_slice() {
        shared.push(Arc::new(alloc, copy_bare(alloc, event)?)?)?;
    }
    Ok(shared)
}

fn copy_bare(alloc: Global, event: &Event) -> Result<Event, NoMemory>
    ensures { IfOk result (λ e. e ≡ shown_event false event.now) }
{
    Ok(Event {
        change: event.change.copy(alloc)?,
        prev: None,
    })
}
