use crate::upstream::Upstream;
use socket_limits::time;
use std::alloc::Global;
use std::rt::Clock as Times;
use std::sync::{Mutex, Wait};

/// So many connections to a member rest at most.
pub(crate) const MOST: usize = 64;

/// One that rested for so many milliseconds is used no more. Servers that close connections at rest wait for five seconds or
/// longer.
const REST_MS: u64 = 3_000;

/// A connection that rests.
#[derive(Drop)]
struct Resting {
    upstream: Upstream,
    // since when, by `time`
    since: u64,
}

/// The connections to a member that rest, so that a later call may use them.
#[derive(Drop)]
pub(crate) struct Idle {
    all: Mutex<Vec<Resting>>,
}

impl Idle {
    /// None.
    pub(crate) fn new(alloc: Global) -> Idle {
        Idle {
            all: Mutex::new(Vec::new(alloc)),
        }
    }

    /// Takes the connection that rests least long. Where that rested for too long all did, and they are closed.
    pub(crate) fn take<R: Times + Wait>(&self, rt: &R) -> Option<Upstream> {
        let resting = self.all.lock(rt).pop()?;
        let now = time(rt).unwrap_or(u64::MAX);
        if now.saturating_sub(resting.since) < REST_MS {
            return Some(resting.upstream);
        }
        self.close(rt);
        None
    }

    /// Lets a connection rest whose last answer was read whole, and closes those that rested for too long.
    pub(crate) fn keep<R: Times + Wait>(&self, rt: &R, upstream: Upstream) {
        let Ok(now) = time(rt) else {
            return;
        };
        let mut all = self.all.lock(rt);
        all.retain(|resting| now.saturating_sub(resting.since) < REST_MS);
        if all.len() < MOST {
            let _ = all.push(Resting {
                upstream,
                since: now,
            });
        }
    }

    /// Closes all: a call failed, and what broke its connection may have broken them.
    pub(crate) fn close<R: Wait>(&self, rt: &R) {
        self.all.lock(rt).clear();
    }
}
