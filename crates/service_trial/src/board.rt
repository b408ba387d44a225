use crate::plan::Plan;
use etcd_types::NoMemory;
use std::alloc::Global;
use std::sync::atomic::Ordering::SeqCst;
use std::sync::atomic::{AtomicBool, AtomicU64};
use std::sync::{Mutex, Wait};
use std::thread;

/// A call that waits for the other is given up after so many turns.
const TURNS: u32 = 10_000_000;

/// What the calls and the clients of a plan share.
#[derive(Drop)]
pub struct Board {
    pub(crate) plan: Plan,
    begun: AtomicU64,
    /// Whether an answer was read.
    answered: AtomicBool,
    /// How many streams were begun.
    pub(crate) streams: AtomicU64,
    closed: AtomicU64,
    first: Mutex<Vec<u8>>,
    second: Mutex<Vec<u8>>,
}

impl Board {
    pub(crate) fn new(alloc: Global, plan: Plan) -> Board {
        Board {
            plan,
            begun: AtomicU64::new(0),
            answered: AtomicBool::new(false),
            streams: AtomicU64::new(0),
            closed: AtomicU64::new(0),
            first: Mutex::new(Vec::new(alloc)),
            second: Mutex::new(Vec::new(alloc)),
        }
    }

    /// What the next call is answered. Where two clients meet, the first call is held until the second is answered.
    pub(crate) fn answer(&self) -> Option<&'static [u8]> {
        let call = self.begun.fetch_add(1, SeqCst);
        if self.plan != Plan::Meeting || call != 0 {
            return self.plan.answer(call);
        }
        for _ in 0..TURNS {
            if self.answered.load(SeqCst) {
                return self.plan.answer(call);
            }
            thread::yield_now();
        }
        None
    }

    /// The answer to a call was read.
    pub(crate) fn note_answer(&self) {
        self.answered.store(true, SeqCst);
    }

    /// A connection is closed.
    pub(crate) fn note_end(&self) {
        self.closed.fetch_add(1, SeqCst);
    }

    /// How many calls were made.
    pub(crate) fn calls(&self) -> u64 {
        self.begun.load(SeqCst)
    }

    fn page(&self, client: u32) -> &Mutex<Vec<u8>> {
        if client == 0 {
            &self.first
        } else {
            &self.second
        }
    }

    /// Notes what a client is told.
    pub(crate) fn tell<R: Wait>(&self, rt: &R, client: u32, bytes: &[u8]) -> Result<(), NoMemory> {
        let mut page = self.page(client).lock(rt);
        Ok(page.extend_from_slice(bytes)?)
    }

    /// What a client was told.
    pub(crate) fn told<R: Wait>(
        &self,
        rt: &R,
        alloc: Global,
        client: u32,
    ) -> Result<Vec<u8>, NoMemory> {
        let page = self.page(client).lock(rt);
        Ok(Vec::from_slice(alloc, page.as_slice())?)
    }

    /// Whether all connections are closed, or all is told on one that stays open.
    pub(crate) fn is_over<R: Wait>(&self, rt: &R) -> bool {
        self.closed.load(SeqCst) >= u64::from(self.plan.clients())
            || self.plan.is_told(self.first.lock(rt).as_slice())
    }
}
