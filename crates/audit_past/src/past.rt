ghost use Rattle.std.specs.Prelude.{◌≤◌};

use crate::traces::item_at;
use crate::watches::{prefix_of, stored_watch};
use etcd_types::{Answer, Bytes, Event, KeyRange, List, NoMemory, Request, WatchAsk, WatchItem};
use replay_parts::{execute_at, expire, nth, open_watch};
use script_text::Item;
use std::alloc::Global;
use store_world::{Store, StoreFault};

/// A store has fewer members than this.
const LAST_MEMBER: u64 = 0xffff_ffff;

/// The stream of the store that is no transcript's: the first one. Those of the transcript are numbered behind it.
const OWN_STREAM: u64 = 1;

/// What the items before a refused one made: the store, and where they did.
#[derive(Drop)]
pub struct Past {
    alloc: Global,
    store: Store,
    /// The compaction revision, or 0.
    compacted: u64,
    /// Where the call of each number, from 1, was sent.
    calls: Vec<usize>,
    /// Where each revision was made, from revision 2 on.
    made: Vec<usize>,
    /// The events of the whole history for the watch that was asked for, compacted or not, each with the record before it.
    events: List<Event>,
}

/// A watch of no key.
fn no_watch(alloc: Global) -> WatchAsk {
    WatchAsk {
        range: KeyRange {
            key: Bytes::new(alloc),
            end: Bytes::new(alloc),
        },
        start: 1,
        no_put: true,
        no_delete: true,
        prev_kv: false,
        progress: true,
    }
}

/// The member of this number; 0, which no store has, where it is too great.
fn member_of(member: u64) -> u32 {
    if member < LAST_MEMBER {
        member as u32
    } else {
        0
    }
}

/// How many members the world has, which the first item makes.
fn members_of(items: &[Item]) -> u64 {
    match items.first() {
        Some(Item::World { members, .. }) => *members,
        _ => 1,
    }
}

/// So many members, where a store has as many.
fn store_members(members: u64) -> u32
    ensures { (1 ≤ result) × (result ≤ 9) }
{
    if 1 <= members && members <= 9 {
        members as u32
    } else {
        1
    }
}

/// The store of the world that the first item makes.
fn first_store(alloc: Global, items: &[Item]) -> Result<Store, NoMemory> {
    Store::new(alloc, store_members(members_of(items)))
}

/// The message, where the store has one.
fn message_of(pushed: Result<WatchItem, StoreFault>) -> Result<Option<WatchItem>, NoMemory> {
    match pushed {
        Ok(message) => Ok(Some(message)),
        Err(StoreFault::NoMemory) => Err(NoMemory),
        Err(_) => Ok(None),
    }
}

/// A step that the store refuses leaves it as it was.
fn step_of(done: Result<(), StoreFault>) -> Result<(), NoMemory> {
    match done {
        Err(StoreFault::NoMemory) => Err(NoMemory),
        _ => Ok(()),
    }
}

fn is_progress(message: &WatchItem) -> bool {
    match message {
        WatchItem::Events { events, .. } => events.len() == 0,
        _ => false,
    }
}

fn is_done(answer: &Answer) -> bool {
    match answer {
        Answer::Done(_) => true,
        Answer::Refused(_) => false,
    }
}

/// The revision up to which the request compacts.
fn compaction_of(request: &Request) -> Option<u64> {
    match request {
        Request::Compact { revision, .. } => Some(*revision),
        _ => None,
    }
}

/// The member and the request of a call that is sent.
fn sent_request(item: Option<&Item>) -> Option<(u64, &Request)> {
    match item {
        Some(
            Item::Sent {
                member,
                request,
                ..
            },
        ) => Some((*member, request)),
        _ => None,
    }
}

impl Past {
    /// The store of the world that the first of these items makes, before it does anything.
    pub fn new(alloc: Global, items: &[Item]) -> Result<Past, NoMemory> {
        Ok(Past {
            alloc,
            store: first_store(alloc, items)?,
            compacted: 0,
            calls: Vec::new(alloc),
            made: Vec::new(alloc),
            events: List::new(alloc),
        })
    }

    /// Goes through these items, from the first one on, with the events for no watch.
    pub fn read(&mut self, items: &[Item]) -> Result<(), NoMemory> {
        let watch = no_watch(self.alloc);
        self.read_with(items, &watch)
    }

    /// The same, with the events for this watch from revision 1 on.
    pub fn read_for(&mut self, items: &[Item], ask: &WatchAsk) -> Result<(), NoMemory> {
        let prefix = prefix_of(self.alloc, items)?;
        let watch = stored_watch(self.alloc, &prefix, ask)?;
        self.read_with(items, &watch)
    }

    fn read_with(&mut self, items: &[Item], watch: &WatchAsk) -> Result<(), NoMemory> {
        open_watch(&mut self.store, 1, watch)?;
        self.gather()?;
        for (place, item) in items.iter().enumerate() {
            self.follow(items, place, item)?;
        }
        Ok(())
    }

    /// Goes on by an item, which may have made a revision.
    fn follow(&mut self, items: &[Item], place: usize, item: &Item) -> Result<(), NoMemory> {
        self.take(items, place, item)?;
        if (self.made.len() as u64).saturating_add(1) < self.store.newest() {
            self.made.push(place)?;
            self.gather()?;
        }
        Ok(())
    }

    fn take(&mut self, items: &[Item], place: usize, item: &Item) -> Result<(), NoMemory> {
        match item {
            Item::Sent { .. } => Ok(self.calls.push(place)?),
            Item::Opened {
                member,
                request,
                ..
            } => self.open(*member, request),
            Item::Executed { call, .. } => self.answer(items, *call),
            Item::Pushed { stream, item } => self.send(*stream, item),
            Item::Expired { lease } => step_of(expire(&mut self.store, *lease)),
            Item::Applied { member, revision } => {
                step_of(self.store.apply(member_of(*member), *revision))
            }
            _ => Ok(()),
        }
    }

    fn answer(&mut self, items: &[Item], call: u64) -> Result<(), NoMemory> {
        let _answer = self.answer_to(items, call)?;
        Ok(())
    }

    fn send(&mut self, stream: u64, told: &WatchItem) -> Result<(), NoMemory> {
        let _message = self.message_to(stream, told)?;
        Ok(())
    }

    fn open(&mut self, member: u64, request: &Request) -> Result<(), NoMemory> {
        if let Request::Watch(ask) = request {
            open_watch(&mut self.store, member_of(member), ask)?;
        }
        Ok(())
    }

    fn keep_events(&mut self, message: &WatchItem) -> Result<(), NoMemory> {
        if let WatchItem::Events { events, .. } = message {
            for event in events.as_slice() {
                self.events.push(event.copy(self.alloc)?)?;
            }
        }
        Ok(())
    }

    /// Takes the events that are new. The own stream is told to have come so far, so that no compaction cancels it.
    fn gather(&mut self) -> Result<(), NoMemory> {
        if let Some(message) = message_of(self.store.push(OWN_STREAM))? {
            self.keep_events(&message)?;
        }
        let _progress = message_of(self.store.progress(OWN_STREAM))?;
        Ok(())
    }

    /// A member does the request.
    pub fn execute(&mut self, member: u64, request: &Request) -> Result<Answer, NoMemory> {
        let answer = execute_at(self.alloc, &mut self.store, member_of(member), request)?;
        if is_done(&answer) {
            self.compacted = compaction_of(request).unwrap_or(self.compacted);
        }
        Ok(answer)
    }

    /// What the store answers to the call, where it was sent.
    pub fn answer_to(&mut self, items: &[Item], call: u64) -> Result<Option<Answer>, NoMemory> {
        let place = nth(self.calls.as_slice(), call).copied();
        match sent_request(item_at(items, place)) {
            Some((member, request)) => Ok(Some(self.execute(member, request)?)),
            None => Ok(None),
        }
    }

    /// The message that the store has for the stream where one of this kind is told.
    pub fn message_to(
        &mut self,
        stream: u64,
        told: &WatchItem,
    ) -> Result<Option<WatchItem>, NoMemory> {
        let number = stream.saturating_add(OWN_STREAM);
        if is_progress(told) {
            Ok(message_of(self.store.progress(number))?)
        } else {
            Ok(message_of(self.store.push(number))?)
        }
    }

    /// The newest revision of the store.
    pub fn newest(&self) -> u64 {
        self.store.newest()
    }

    /// The compaction revision, or 0.
    pub fn compacted(&self) -> u64 {
        self.compacted
    }

    /// The events of the whole history for the watch, in order.
    pub fn events(&self) -> &[Event] {
        self.events.as_slice()
    }

    /// Where this revision was made.
    pub fn made_at(&self, revision: u64) -> Option<usize> {
        if revision < 2 {
            return None;
        }
        self.made.get((revision - 2) as usize).copied()
    }

    /// Where the newest revision was made.
    pub fn last_made(&self) -> Option<usize> {
        self.made.last().copied()
    }
}
