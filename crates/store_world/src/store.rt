ghost use Rattle.std.specs.Prelude.{◌≡◌, ◌<◌, ◌≤◌, ◌^◌, false, length, min, IfOk, IfErr, OnErr};
ghost use Rattle.std.specs.Option.{option_copied, option_map};
ghost use Rattle.etcd_types.specs.declared.request.Request.TheVariants as request;
ghost use Rattle.store_model.specs.History.{newest};
ghost use Rattle.store_model.specs.State.{State, HasMember, starting};
ghost use Rattle.store_model.specs.Step.{exec, IsExecuted};
ghost use Rattle.store_model.specs.Leases.{expired};
ghost use Rattle.store_model.specs.Members.{applied};
ghost use Rattle.store_model.specs.Watches.{watch_of, opened, pushed, progressed};
ghost use Rattle.store_index.specs.Count.{count_kept};
ghost use Rattle.store_world.specs.Pushes.{watched_range};

use crate::followed::Followed;
use crate::leases::Leases;
use crate::table::Table;
use etcd_types::{Answer, KeyRange, NoMemory, Request, WatchAsk, WatchItem};
use std::alloc::Global;
use store_model::{OpenWatch, StoreFault};

/// A store of one cluster, with the revisions that its members have applied.
#[derive(Debug, Drop)]
pub struct Store {
    pub(crate) alloc: Global,
    pub(crate) index: Followed,
    pub(crate) leases: Leases,
    pub(crate) applied: Table<u64>,
    pub(crate) watches: Table<OpenWatch>,
    ghost has_a_member: { 0 < length applied },
}

impl Store {
    ghost use Rattle.store_world.specs.Faults.{StepsTo, Gives, IsFault};
    ghost use Rattle.store_world.specs.Store.{Stands, Takes, Opens};

    /// An empty store of so many members, each of which has applied revision 1.
    pub fn new(alloc: Global, members: u32) -> Result<Store, NoMemory>
        requires members { (1 ≤ members) × (members ≤ 9) }
        ensures { IfOk result (λ store. Stands store (starting members)) }
    {
        let mut applied = Table::new(alloc);
        for _ in 0..members {
            applied.push(1)?;
        }
        Ok(Store {
            alloc,
            index: Followed::new(alloc),
            leases: Leases::new(alloc),
            applied,
            watches: Table::new(alloc),
        })
    }

    /// The newest revision, from 1. It takes no memory.
    pub fn newest(&self) -> u64
        ensures { (s : State) → Stands self.now s → result ≡ newest s.history }
    {
        self.index.get().newest
    }

    /// The number of members, from 1. It takes no memory.
    pub fn members(&self) -> u64
        ensures { (s : State) → Stands self.now s → result ≡ length s.applied }
    {
        self.applied.as_slice().len() as u64
    }

    /// How many versions it keeps of all keys together: those from its compaction on, and of each key whose last change at or
    /// below it is a put below it, that put. More than 64 bits can count are told as the last number of 64 bits. It takes no
    /// memory.
    pub fn kept(&self) -> u64
        ensures { (s : State) → Stands self.now s → result ≡ min (count_kept s.history s.compacted) 0xffff_ffff_ffff_ffff }
    {
        self.index.get().kept()
    }

    /// Does the request at member 1. Its one refusal is want of memory, and the store is then as before.
    pub fn execute(&mut self, request: &Request) -> Result<Answer, NoMemory>
        requires executed { IsExecuted request.now }
        requires room { (s : State) → Stands self.old s → newest s.history < 2 ^ 63 }
        ensures step { IfOk result (λ answer. (s : State) → Stands self.old s → Takes self.new answer (exec s 1 request.now)) }
        ensures err { OnErr result (self.new ≡ self.old) }
    {
        Ok(self.execute_at(1, request)?)
    }

    /// Does the request at a member. Its one refusal is want of memory, and the store is then as before.
    pub fn execute_at(&mut self, member: u32, request: &Request) -> Result<Answer, NoMemory>
        requires executed { IsExecuted request.now }
        requires room { (s : State) → Stands self.old s → newest s.history < 2 ^ 63 }
        requires member { (s : State) → Stands self.old s → HasMember s member }
        ensures step { IfOk result (λ answer. (s : State) → Stands self.old s → Takes self.new answer (exec s member request.now)) }
        ensures err { OnErr result (self.new ≡ self.old) }
    {
        Ok(self.exec(member, request)?)
    }

    /// Does a compaction at this revision, as a request at member 1.
    #[tactic(auto, unfolding(store_model::specs::Step::exec))]
    pub fn compact(&mut self, revision: u64) -> Result<Answer, NoMemory>
        ensures step { IfOk result (λ answer. (s : State) → Stands self.old s → Takes self.new answer (exec s 1 (request.Compact revision false))) }
        ensures err { OnErr result (self.new ≡ self.old) }
    {
        Ok(self.exec_compact(1, revision)?)
    }

    /// Lets a lease expire, which deletes its keys as a revocation does. `NoSuchLease` comes where there is no such lease.
    pub fn expire(&mut self, lease: u64) -> Result<(), StoreFault>
        requires room { (s : State) → Stands self.old s → newest s.history < 2 ^ 63 }
        ensures step { IfOk result (λ _. (s : State) → Stands self.old s → StepsTo self.new (expired s lease)) }
        ensures fault { IfErr result (λ fault. (s : State) → Stands self.old s → IsFault fault (expired s lease)) }
        ensures err { OnErr result (self.new ≡ self.old) }
    {
        self.expire_lease(lease)
    }

    /// Lets a member apply the revisions up to this one. `NoSuchMember` comes where there is no such member, and else
    /// `BadApply` where the revision is below the one that it has applied or above the newest.
    pub fn apply(&mut self, member: u32, revision: u64) -> Result<(), StoreFault>
        ensures step { IfOk result (λ _. (s : State) → Stands self.old s → StepsTo self.new (applied s member revision)) }
        ensures fault { IfErr result (λ fault. (s : State) → Stands self.old s → IsFault fault (applied s member revision)) }
        ensures err { OnErr result (self.new ≡ self.old) }
    {
        self.apply_at(member, revision)
    }

    /// Opens a watch at a member, and gives its number: watches are numbered from 1.
    pub fn open_watch(&mut self, member: u32, ask: &WatchAsk) -> Result<u64, NoMemory>
        requires { (s : State) → Stands self.old s → HasMember s member }
        ensures step { IfOk result (λ number. (s : State) → Stands self.old s → Opens self.new number (opened s member ask.now)) }
        ensures err { OnErr result (self.new ≡ self.old) }
    {
        self.open(member, ask)
    }

    /// The range of a watch, or none where no watch of this number was opened. It takes no memory.
    pub fn watched(&self, watch: u64) -> Option<&KeyRange>
        ensures { (s : State) → Stands self.now s → option_copied result ≡ option_map watched_range (watch_of s watch) }
    {
        match self.watch(watch) {
            Some(watch) => Some(&watch.ask.range),
            None => None,
        }
    }

    /// Pushes the next message of a watch: that it was created, then its events, or a cancellation where it fell behind a
    /// compaction. `NoSuchWatch` comes where no watch of this number was opened, and else `NothingToPush` where it was
    /// created, is not behind a compaction, and has no event to come.
    pub fn push(&mut self, watch: u64) -> Result<WatchItem, StoreFault>
        ensures step { IfOk result (λ item. (s : State) → Stands self.old s → Gives self.new item (pushed s watch)) }
        ensures fault { IfErr result (λ fault. (s : State) → Stands self.old s → IsFault fault (pushed s watch)) }
        ensures err { OnErr result (self.new ≡ self.old) }
    {
        self.push_next(watch)
    }

    /// Pushes a message without events, which says that all events of the watch up to the newest revision have come.
    /// `NoSuchWatch` comes where no watch of this number was opened, else `NotAsked` where it did not ask for such
    /// messages, and else `NotSynced` where it was not created yet, is behind a compaction or has an event to come.
    pub fn progress(&mut self, watch: u64) -> Result<WatchItem, StoreFault>
        ensures step { IfOk result (λ item. (s : State) → Stands self.old s → Gives self.new item (progressed s watch)) }
        ensures fault { IfErr result (λ fault. (s : State) → Stands self.old s → IsFault fault (progressed s watch)) }
        ensures err { OnErr result (self.new ≡ self.old) }
    {
        self.push_progress(watch)
    }
}
