//! What is counted of one connection, by the thread that serves it alone.

use etcd_types::NoMemory;
use outside::RequestKind;
use std::alloc::Global;
use std::sync::atomic::AtomicU64;
use std::sync::atomic::Ordering::SeqCst;

/// The statuses that are told apart, and 0 for each other one.
pub(crate) const STATUSES: [u16; 10] = [200, 400, 403, 404, 405, 500, 501, 503, 504, 0];

/// The kinds of requests, in the order in which they are counted.
pub(crate) const KINDS: [RequestKind; 12] = [
    RequestKind::Range,
    RequestKind::Put,
    RequestKind::Delete,
    RequestKind::Txn,
    RequestKind::Compact,
    RequestKind::Grant,
    RequestKind::Revoke,
    RequestKind::KeepAlive,
    RequestKind::TimeToLive,
    RequestKind::Leases,
    RequestKind::Watch,
    RequestKind::Other,
];

/// The places of `Other` among the kinds, and of 0 among the statuses.
const OTHER: usize = 11;

const ANY_OTHER: usize = 9;

/// So many statuses are counted of each kind, and so many replies of each connection.
const COLUMNS: usize = 10;

pub(crate) const REPLIES: usize = 120;

/// Before and behind a connection's words lie so many that nobody writes, so that no other connection's lie in one line of a processor's cache
/// with them.
const APART: usize = 8;

// the place of each word
const KIND: usize = APART;

const STEPS: usize = APART + 1;

const WATCHES: usize = APART + 2;

const CACHED: usize = APART + 3;

const MESSAGES: usize = APART + 4;

const EVENTS: usize = APART + 5;

const ENDED: usize = APART + 6;

const FIRST: usize = APART + 7;

const WORDS: usize = FIRST + REPLIES + APART;

/// Where a kind of request is counted.
fn row(kind: RequestKind) -> usize {
    KINDS
        .iter()
        .position(|other| *other == kind)
        .unwrap_or(OTHER)
}

/// Where a status is counted.
fn column(status: u16) -> usize {
    STATUSES
        .iter()
        .position(|other| *other == status)
        .unwrap_or(ANY_OTHER)
}

/// What is counted of one connection: one thread writes it, and others read it now and then.
#[derive(Drop)]
pub struct Tally {
    words: Vec<AtomicU64>,
}

impl Tally {
    /// Nothing was done yet.
    pub(crate) fn new(alloc: Global) -> Result<Tally, NoMemory> {
        let mut words = Vec::new(alloc);
        for _ in 0..WORDS {
            words.push(AtomicU64::new(0))?;
        }
        let tally = Tally { words };
        tally.set(KIND, OTHER as u64);
        Ok(tally)
    }

    fn get(&self, place: usize) -> u64 {
        match self.words.get(place) {
            Some(word) => word.load(SeqCst),
            None => 0,
        }
    }

    fn set(&self, place: usize, value: u64) {
        if let Some(word) = self.words.get(place) {
            word.store(value, SeqCst);
        }
    }

    // One thread alone writes.
    fn add(&self, place: usize) {
        self.set(place, self.get(place).saturating_add(1));
    }

    /// A request of this kind was read.
    pub(crate) fn asked(&self, kind: RequestKind) {
        self.rests();
        self.set(KIND, row(kind) as u64);
        self.set(STEPS, 0);
    }

    /// The machine made a step for the connection.
    pub(crate) fn stepped(&self) {
        self.add(STEPS);
    }

    /// A request has this reply, or its first part. A read that has it behind one step was answered by the machine alone: what waits for a
    /// call is told of it by a later step.
    pub(crate) fn replied(&self, status: u16) {
        let kind = (self.get(KIND) as usize).min(OTHER);
        let place = kind.saturating_mul(COLUMNS).saturating_add(column(status));
        self.add(place.saturating_add(FIRST));
        let is_read = kind == row(RequestKind::Range) || kind == row(RequestKind::Txn);
        if is_read && status == 200 && self.get(STEPS) == 1 {
            self.add(CACHED);
        }
        if kind == row(RequestKind::Watch) && status == 200 {
            self.set(WATCHES, 1);
        }
        self.set(KIND, OTHER as u64);
    }

    /// A message of a watch is sent.
    pub(crate) fn told(&self) {
        self.add(MESSAGES);
    }

    /// The next message of a watch has so many events.
    pub(crate) fn sent(&self, events: u64) {
        self.set(EVENTS, self.get(EVENTS).saturating_add(events));
    }

    /// No request is being served.
    pub(crate) fn rests(&self) {
        if self.get(WATCHES) != 0 {
            self.set(WATCHES, 0);
        }
    }

    /// The connection has ended, and nothing more is counted.
    pub(crate) fn end(&self) {
        self.set(ENDED, 1);
    }

    pub(crate) fn has_ended(&self) -> bool {
        self.get(ENDED) != 0
    }

    /// How many reads were answered by the machine alone.
    pub(crate) fn cached(&self) -> u64 {
        self.get(CACHED)
    }

    /// How many messages of watches were sent.
    pub(crate) fn messages(&self) -> u64 {
        self.get(MESSAGES)
    }

    /// How many events these messages had.
    pub(crate) fn events(&self) -> u64 {
        self.get(EVENTS)
    }

    /// Whether a watch is being served.
    pub(crate) fn watches(&self) -> u64 {
        self.get(WATCHES)
    }

    /// How many replies are counted at this place: kind by kind, and of each status by status.
    pub(crate) fn replies(&self, place: usize) -> u64 {
        self.get(place.saturating_add(FIRST))
    }
}
