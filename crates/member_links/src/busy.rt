//! How many of a process's workers are inside calls.

use crate::counts::micros;
use socket_limits::{Pace, line_time};
use std::rt::Clock as Times;
use std::sync::atomic::AtomicU64;
use std::sync::atomic::Ordering::SeqCst;

/// All workers are busy where each was inside calls for so many microseconds.
const BUSY_US: u64 = 1_000_000;

/// Between two calls a worker that has more to do takes fewer microseconds than these.
const BREAK_US: u64 = 10_000;

/// A line says that all are busy once in so many milliseconds.
const LINES_MS: u64 = 60_000;

/// The calls that a process's links are in the midst of, beside how many workers make calls.
#[derive(Drop)]
pub(crate) struct Busy {
    // how many workers there are, or 0 where nobody is told that they are busy
    workers: u64,
    // how many calls are in progress
    calls: AtomicU64,
    // when a worker came last that had made no call for a while, by `micros`
    rested: AtomicU64,
    pace: Pace,
}

impl Busy {
    /// Nobody is inside a call.
    pub(crate) fn new(workers: u64) -> Busy {
        Busy {
            workers,
            calls: AtomicU64::new(0),
            rested: AtomicU64::new(0),
            pace: Pace::new(),
        }
    }

    /// How many workers there are, or 0 where nobody said, and how many are inside calls.
    pub(crate) fn counts(&self) -> (u64, u64) {
        (self.workers, self.calls.load(SeqCst))
    }

    /// A worker begins a call. Its last one ended then, by `micros`, or it made none where that is 0. When that is, by `micros`.
    pub(crate) fn begin<R: Times>(&self, rt: &R, ended: u64) -> u64 {
        let now = micros(rt);
        if now.saturating_sub(ended) > BREAK_US {
            self.rested.store(now, SeqCst);
        }
        self.calls.fetch_add(1, SeqCst);
        now
    }

    /// A worker's call ends. When that is, by `micros`. Where all workers were inside calls for a second it is said on the standard error.
    pub(crate) fn end<R: Times + Eprint>(&self, rt: &R) -> u64 {
        let at = micros(rt);
        let calls = self.calls.fetch_sub(1, SeqCst);
        let workers = self.workers;
        let is_full = 0 < workers && workers <= calls;
        let is_long = BUSY_US <= at.saturating_sub(self.rested.load(SeqCst));
        if is_full && is_long && self.pace.is_due(rt, LINES_MS) {
            let when = line_time(rt);
            let _ = eprintln!(rt;
                "{when:.3} WARN etcd_proxy: all {workers} workers were inside calls for a second, and further calls wait: see --workers"
            );
        }
        at
    }
}
