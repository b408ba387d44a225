//! How lines on the standard error begin, and how often what is repeated may be.

use crate::times::time;
use jiff::Timestamp;
use std::rt::Clock as Times;
use std::sync::atomic::AtomicU64;
use std::sync::atomic::Ordering::SeqCst;

/// The wall clock's time, with which a line begins (RFC 3339). It is the start of 1970 where the system tells no time.
pub fn line_time<R: Times>(rt: &R) -> Timestamp {
    Timestamp::now(rt).unwrap_or(Timestamp::UNIX_EPOCH)
}

/// When the last line of a kind was written, or what else is done now and then was done.
#[derive(Drop)]
pub struct Pace {
    // by `time`, or 0 where none was
    told: AtomicU64,
}

impl Pace {
    /// It wasn't done yet.
    pub fn new() -> Pace {
        Pace {
            told: AtomicU64::new(0),
        }
    }

    /// Whether so many milliseconds have passed since it was done last. It then counts as done.
    pub fn is_due<R: Times>(&self, rt: &R, millis: u64) -> bool {
        let Ok(now) = time(rt) else {
            return false;
        };
        let last = self.told.load(SeqCst);
        let is_over = last == 0 || now >= last.saturating_add(millis);
        is_over
            && self
                .told
                .compare_exchange(last, now, SeqCst, SeqCst)
                .is_ok()
    }
}
