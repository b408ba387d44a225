// Whom a step gave something to take. No clause speaks of it: waking too many costs time, and who is not woken rests on until a later
// step wakes it, or for ten seconds.

use crate::lots::Lots;
use crate::watchers::Watchers;
use etcd_types::{Answer, Bytes, KeyRange, Op, Request};
use outside::Roused;
use shop_model::{StoreEvent, StoreOutcome, StoreStepFault};
use std::alloc::Global;
use std::mem;
use store_world::Store;

/// How long a period is, in milliseconds: three times as long as a pass rests at most. So a watch that is still followed asked for a
/// message in this period or in the one before.
const PERIOD_MS: u64 = 30_000;

/// In which lots the watches rest that follow a key, and whom the last step roused. A watch that asks for no more messages is
/// forgotten with the period in which it last did.
#[derive(Drop)]
pub(crate) struct Followers {
    alloc: Global,
    /// The watches of this period.
    now: Watchers,
    /// Those of the one before.
    before: Watchers,
    /// When this period ends, by the clock of the steps.
    until: u64,
    roused: Roused,
    lots: Lots,
}

impl Followers {
    pub(crate) fn new(alloc: Global) -> Followers {
        Followers {
            alloc,
            now: Watchers::new(alloc),
            before: Watchers::new(alloc),
            until: 0,
            roused: Roused::Nobody,
            lots: Lots::none(),
        }
    }

    pub(crate) fn roused(&self) -> Roused {
        self.roused
    }

    pub(crate) fn word(&self, number: u32) -> u64 {
        self.lots.word(number)
    }

    /// Notes whom a step of the store roused, before which leases may have expired.
    pub(crate) fn note(
        &mut self,
        store: &Store,
        event: &StoreEvent,
        now: u64,
        answer: &Result<StoreOutcome, StoreStepFault>,
        expired: bool,
    ) {
        self.roused = Roused::Nobody;
        self.lots = Lots::none();
        self.end_period(now);
        match event {
            StoreEvent::Exec(request) => {
                if matches!(answer, Ok(StoreOutcome::Answer(Answer::Done(_)))) {
                    self.rouse_by(request);
                }
            }
            StoreEvent::Open(ask) => {
                if let Ok(StoreOutcome::Opened(number)) = answer {
                    self.now.follow(*number, &ask.range);
                }
            }
            StoreEvent::Push(number) => self.keep(store, *number),
        }
        if expired {
            self.roused = Roused::Everybody;
        }
    }

    /// Begins a new period where this one is over.
    fn end_period(&mut self, now: u64) {
        if now < self.until {
            return;
        }
        self.until = now.saturating_add(PERIOD_MS);
        self.before = mem::replace(&mut self.now, Watchers::new(self.alloc));
    }

    /// Notes that the watch of this number still asks for messages.
    fn keep(&mut self, store: &Store, number: u64) {
        if self.now.has(number) {
            return;
        }
        if let Some(range) = store.watched(number) {
            self.now.follow(number, range);
        }
    }

    /// Rouses whom a request that was done may tell something.
    fn rouse_by(&mut self, request: &Request) {
        match request {
            Request::Put(ask) => self.rouse_key(&ask.key),
            Request::Delete(ask) => self.rouse_range(&ask.range),
            Request::Txn(txn) => {
                self.rouse_by_each(txn.success.as_slice());
                self.rouse_by_each(txn.failure.as_slice());
            }
            Request::Compact { .. } | Request::Revoke { .. } => self.roused = Roused::Everybody,
            Request::Range(_)
            | Request::Grant { .. }
            | Request::KeepAlive { .. }
            | Request::TimeToLive { .. }
            | Request::Leases
            | Request::Watch(_) => {}
        }
    }

    fn rouse_by_each(&mut self, operations: &[Op]) {
        for operation in operations {
            match operation {
                Op::Range(_) => {}
                Op::Put(ask) => self.rouse_key(&ask.key),
                Op::Delete(ask) => self.rouse_range(&ask.range),
                Op::Txn(_) => self.roused = Roused::Everybody,
            }
        }
    }

    fn rouse_range(&mut self, range: &KeyRange) {
        if range.is_one() {
            self.rouse_key(&range.key);
        } else {
            self.roused = Roused::Everybody;
        }
    }

    /// Rouses the watches of the key.
    fn rouse_key(&mut self, key: &Bytes) {
        match (self.now.lots_of(key), self.before.lots_of(key)) {
            (Some(now), Some(before)) => {
                self.lots.add_all(&now);
                self.lots.add_all(&before);
                if matches!(self.roused, Roused::Nobody) {
                    self.roused = Roused::Lots;
                }
            }
            _ => self.roused = Roused::Everybody,
        }
    }
}
