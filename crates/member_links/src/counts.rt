//! What is counted of the calls that workers make to a member. Who asks whether it answers, and who follows a stream, counts nothing here.

use std::rt::Clock as Times;
use std::sync::atomic::AtomicU64;
use std::sync::atomic::Ordering::SeqCst;

/// What was counted of the calls to a member.
#[derive(Clone, Copy, Debug, PartialEq, Eq)]
pub struct CallCounts {
    /// Those that ended, the lost ones among them.
    pub made: u64,
    /// Those that it took a byte of, and whose answer didn't come.
    pub lost: u64,
    /// How long all of them took, in microseconds.
    pub micros: u64,
}

/// The same, as they go on.
#[derive(Drop)]
pub(crate) struct Calls {
    made: AtomicU64,
    lost: AtomicU64,
    micros: AtomicU64,
}

/// The time since some start, in microseconds, or 0 where the system tells none.
pub(crate) fn micros<R: Times>(rt: &R) -> u64 {
    match rt.monotonic() {
        Ok(time) => u64::try_from(time.as_micros()).unwrap_or(u64::MAX),
        Err(_) => 0,
    }
}

impl Calls {
    /// None was made.
    pub(crate) fn new() -> Calls {
        Calls {
            made: AtomicU64::new(0),
            lost: AtomicU64::new(0),
            micros: AtomicU64::new(0),
        }
    }

    /// One that took so many microseconds has ended.
    pub(crate) fn ended(&self, took: u64, is_lost: bool) {
        self.made.fetch_add(1, SeqCst);
        self.micros.fetch_add(took, SeqCst);
        if is_lost {
            self.lost.fetch_add(1, SeqCst);
        }
    }

    pub(crate) fn counts(&self) -> CallCounts {
        CallCounts {
            made: self.made.load(SeqCst),
            lost: self.lost.load(SeqCst),
            micros: self.micros.load(SeqCst),
        }
    }
}
