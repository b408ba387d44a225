ghost use Rattle.std.specs.Prelude.{◌≡◌, ◌≤◌, ◌<◌, ◌^◌, [], true, IfOk, OnOk, OnErr};
ghost use Rattle.etcd_types.specs.declared.request.WatchAsk.{WatchAsk};
ghost use Rattle.store_model.specs.History.{History, with_revision};
ghost use Rattle.store_model.specs.Events.{watch_events};
ghost use Rattle.store_model.specs.Watches.{next_after};
ghost use Rattle.store_index.specs.Index.{HoldsKept};
ghost use Rattle.store_world.specs.Looked.{IsLooked, IsSilent, tells_of};

use etcd_types::{NoMemory, WatchAsk};
use std::alloc::Global;
use std::marker::Model;
use store_history::Batch;
use store_index::{Changes, Index};
use store_reads::watch_events;

/// What a watch asks for, and a span of revisions that tell it nothing: from one on up to below another one.
#[derive(Debug, Drop)]
pub(crate) struct Looked {
    pub(crate) ask: WatchAsk,
    pub(crate) from: u64,
    pub(crate) to: u64,
}

/// An index, and for each watch how far it was looked through without anything to tell the watch. Contracts see the index.
#[derive(Debug, Drop)]
pub(crate) struct Followed {
    index: Index,
    looked: Vec<Looked>,
}

impl Model for Followed {
    ghost use Rattle.std.specs.List.{All};
    ghost use Rattle.store_index.specs.declared.index.Index.{Index};
    ghost use Rattle.store_world.specs.Looked.{IsLooked};

    ghost Value = { Index };

    ghost view = { λ f. f.index };

    ghost invariant = { λ f. All (IsLooked f.index) f.looked.items };
}

impl Followed {
    /// The index of a history without a revision, and no watch.
    pub(crate) fn new(alloc: Global) -> Followed
        ensures holds { HoldsKept result [] }
        ensures compacted { result.compacted ≡ 0 }
    {
        Followed {
            index: Index::new(alloc),
            looked: Vec::new(alloc),
        }
    }

    pub(crate) fn get(&self) -> &Index
        ensures { result.now ≡ self.now }
    {
        &self.index
    }

    /// Adds a revision of these changes, where there are any.
    pub(crate) fn add(&mut self, changes: Changes) -> Result<(), NoMemory>
        requires { self.old.newest < 2 ^ 63 }
        ensures ok { OnOk result ((h : History) → HoldsKept self.old h → HoldsKept self.new (with_revision h changes)) }
        ensures compacted { OnOk result (self.new.compacted ≡ self.old.compacted) }
        ensures err { OnErr result (self.new ≡ self.old) }
    {
        self.index.add(changes)?;
        Ok(())
    }

    pub(crate) fn compact(&mut self, revision: u64)
        requires past { self.old.compacted ≤ revision }
        requires within { revision ≤ self.old.newest }
        ensures kept { (h : History) → HoldsKept self.old h → HoldsKept self.new h }
        ensures compacted { self.new.compacted ≡ revision }
    {
        self.index.compact(revision);
    }

    /// The watch of this number asks for this. Where memory was wanting, it may be asked anew.
    pub(crate) fn follow(
        &mut self,
        alloc: Global,
        number: u64,
        ask: &WatchAsk,
    ) -> Result<(), NoMemory>
        ensures { self.new ≡ self.old }
    {
        let ask = ask.copy(alloc)?;
        self.looked.truncate(place_of(number));
        self.looked.push(Looked {
            ask,
            from: 2,
            to: 2,
        })?;
        Ok(())
    }

    /// Notes that nothing from this revision on is told to the watch of this number.
    pub(crate) fn note(&mut self, number: u64, ask: &WatchAsk, from: u64)
        requires { (h : History) → HoldsKept self.old h → watch_events h self.old.compacted ask.now from ≡ [] }
        ensures { self.new ≡ self.old }
    {
        let place = place_of(number);
        if place < self.looked.len() && is_same(&self.looked[place].ask, ask) {
            let to = self.index.newest + 1;
            note_in(&mut self.looked[place], from.max(2), to);
        }
    }

    /// A revision from which on a watch may be read instead of from this one, as it is noted for the watch of this number.
    fn silent_to(&self, number: u64, ask: &WatchAsk, from: u64) -> u64
        ensures silent { (h : History) → HoldsKept self.now h → IsSilent ask.now h from result }
        ensures past { from ≤ result }
    {
        let Some(looked) = self.looked.get(place_of(number)) else {
            return from;
        };
        if tells_of(looked, self.index.compacted, from) && is_same(&looked.ask, ask) {
            looked.to
        } else {
            from
        }
    }

    /// The events of the watch of this number, as a read from the revision on gives them.
    pub(crate) fn events(
        &self,
        alloc: Global,
        number: u64,
        ask: &WatchAsk,
        from: u64,
    ) -> Result<Batch, NoMemory>
        requires { self.now.compacted ≤ from }
        ensures events { IfOk result (λ batch. (h : History) → HoldsKept self.now h → batch.events ≡ watch_events h self.now.compacted ask.now from) }
        ensures next { IfOk result (λ batch. (h : History) → HoldsKept self.now h → batch.next ≡ next_after from batch.events) }
    {
        let start = self.silent_to(number, ask, from.max(2));
        let batch = watch_events(alloc, &self.index, ask, start)?;
        if batch.events.as_slice().is_empty() {
            return Ok(Batch {
                events: batch.events,
                next: from,
            });
        }
        Ok(batch)
    }
}

/// Watches are numbered from 1.
fn place_of(number: u64) -> usize {
    number.saturating_sub(1) as usize
}

/// Whether what is noted tells something of a read from this revision on.
fn tells_of(looked: &Looked, compacted: u64, from: u64) -> bool
    ensures { result ≡ tells_of looked.now compacted from }
{
    compacted <= looked.from && looked.from <= from && from <= looked.to
}

/// Whether both ask for the same.
fn is_same(one: &WatchAsk, other: &WatchAsk) -> bool
    ensures { result ≡ true → one.now ≡ other.now }
{
    one == other
}

fn note_in(looked: &mut Looked, from: u64, to: u64)
    ensures { looked.new ≡ record looked.old { from = from; to = to } }
{
    looked.from = from;
    looked.to = to;
}
