ghost use Rattle.std.specs.Prelude.{◌≡◌, ◌∷◌, [], drop, OnOk, OnErr, IfOk};
ghost use Rattle.etcd_types.specs.declared.watch.WatchItem.TheVariants.{Events};
ghost use Rattle.watch_model.specs.Queues.{chosen, would_pass, first_item, is_nil, is_one};
ghost use Rattle.watch_queue.specs.Queued.{no_items, committed, progressed};
ghost use Rattle.watch_queue.specs.Heads.{item_of_head, count_of, shared_of};
ghost use Rattle.watch_queue.specs.Shared.{values};

use crate::head::Head;
use crate::rings::{
    count_of, drop_first, ends_in_progress, event_count, item_of, push_batch, push_head, put_last,
    shared_of,
};
use circular_buffer::HeapCircularBuffer;
use etcd_types::{Event, Header, NoMemory, WatchAsk};
use std::alloc::Global;
use std::marker::Model;
use std::sync::Arc;
use told_items::Told;

/// The most events that a queue with items takes.
const LIMIT: usize = 1024;

/// The items that wait for a watch's taker, and an item that is made ready and not queued yet.
#[derive(Drop)]
pub struct Queue {
    alloc: Global,
    heads: HeapCircularBuffer<Head>,
    events: HeapCircularBuffer<Arc<Event, Global>>,
    /// How many of the heads, and of the events, are queued; the others are made ready.
    shown: usize,
    within: usize,
    /// How many events the queued heads have in messages that many have, and how many those have that are made ready too.
    shared: usize,
    ready: usize,
}

impl Model for Queue {
    ghost use Rattle.std.specs.Prelude.{take, drop};
    ghost use Rattle.watch_queue.specs.Queued.{Queued};
    ghost use Rattle.watch_queue.specs.Heads.{Fits, Counts, items_of};
    ghost use Rattle.watch_queue.specs.Shared.{values};
    ghost use Rattle.watch_queue.specs.declared.head.Head.TheVariants as head;

    ghost Value = { Queued };

    ghost view = { λ q. record { items = take q.shown (items_of q.heads.items (values q.events.items)); staged = drop q.shown (items_of q.heads.items (values q.events.items)) } };

    ghost invariant = { λ q. Fits q.heads.items (values q.events.items) q.shown q.within × Counts q.heads.items q.shown q.shared q.ready };
}

impl Queue {
    /// A queue without items.
    pub fn new(alloc: Global) -> Result<Queue, NoMemory>
        ensures { IfOk result (λ q. q ≡ no_items) }
    {
        Ok(Queue {
            alloc,
            heads: HeapCircularBuffer::with_capacity(alloc, 0)?,
            events: HeapCircularBuffer::with_capacity(alloc, 0)?,
            shown: 0,
            within: 0,
            shared: 0,
            ready: 0,
        })
    }

    /// Whether no item is queued.
    pub fn is_empty(&self) -> bool
        ensures { result ≡ is_nil self.now.items }
    {
        self.shown == 0
    }

    /// Whether one item alone is queued.
    pub fn is_one(&self) -> bool
        ensures { result ≡ is_one self.now.items }
    {
        self.shown == 1
    }

    /// Whether it would pass the limit with so many events more.
    pub fn would_pass(&self, more: usize) -> bool
        ensures { result ≡ would_pass self.now.items more }
    {
        self.shown != 0 && self.within.saturating_add(self.shared).saturating_add(more) > LIMIT
    }

    /// Makes a batch ready: of its events those that are for the watch, which are shared and not copied.
    pub fn stage(
        &mut self,
        header: Header,
        batch: &[Arc<Event, Global>],
        from: u64,
        ask: &WatchAsk,
    ) -> Result<(), NoMemory>
        ensures items { self.new.items ≡ self.old.items }
        ensures ok { OnOk result (self.new.staged ≡ Events header (chosen ask.now from (values batch.now)) ∷ []) }
    {
        self.unstage();
        push_batch(&mut self.heads, &mut self.events, header, batch, from, ask)
    }

    /// Makes a message ready that many have. A count of events that no number tells is as memory that is wanting.
    pub fn stage_told(&mut self, told: Told) -> Result<(), NoMemory>
        ensures items { self.new.items ≡ self.old.items }
        ensures ok { OnOk result (self.new.staged ≡ told ∷ []) }
    {
        self.unstage();
        let Some(ready) = self.ready.checked_add(event_count(told.item())) else {
            return Err(NoMemory);
        };
        push_head(&mut self.heads, Head::Whole(told))?;
        self.ready = ready;
        Ok(())
    }

    /// Makes an item without events ready.
    pub fn stage_head(&mut self, head: Head) -> Result<(), NoMemory>
        requires count { count_of head ≡ 0 }
        requires shared { shared_of head ≡ 0 }
        ensures items { self.new.items ≡ self.old.items }
        ensures ok { OnOk result (self.new.staged ≡ item_of_head head ∷ []) }
    {
        self.unstage();
        push_head(&mut self.heads, head)
    }

    /// What was made ready is queued.
    pub fn commit(&mut self)
        ensures { self.new ≡ committed self.old }
    {
        self.shown = self.heads.len();
        self.within = self.events.len();
        self.shared = self.ready;
    }

    /// A message without events is queued: in the place of one that is last, else what was made ready.
    pub fn commit_progress(&mut self, header: Header)
        ensures { self.new ≡ progressed self.old header }
    {
        if ends_in_progress(&self.heads, self.shown) {
            put_last(
                &mut self.heads,
                self.shown,
                Head::Events { header, count: 0 },
            );
            self.events.truncate_back(self.within);
            self.ready = self.shared;
        } else {
            self.commit();
        }
    }

    /// The first item, which is no longer queued then.
    pub fn take(&mut self) -> Result<Option<Told>, NoMemory>
        ensures value { IfOk result (λ o. o ≡ first_item self.old.items) }
        ensures ok { OnOk result (self.new.items ≡ drop 1 self.old.items) }
        ensures staged { self.new.staged ≡ self.old.staged }
        ensures err { OnErr result (self.new ≡ self.old) }
    {
        if self.shown == 0 {
            return Ok(None);
        }
        match self.heads.front() {
            None => Ok(None),
            Some(head) => {
                let item = item_of(self.alloc, &self.events, head)?;
                let count = count_of(head);
                let shared = shared_of(head);
                self.heads.pop_front();
                drop_first(&mut self.events, count);
                self.shown -= 1;
                self.within = self.within.saturating_sub(count);
                self.shared = self.shared.saturating_sub(shared);
                self.ready = self.ready.saturating_sub(shared);
                Ok(Some(item))
            }
        }
    }

    /// What was made ready is dropped.
    fn unstage(&mut self)
        ensures { self.new ≡ record { items = self.old.items; staged = [] } }
    {
        self.heads.truncate_back(self.shown);
        self.events.truncate_back(self.within);
        self.ready = self.shared;
    }
}
