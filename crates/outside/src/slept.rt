//! How long a machine slept, which its monotonic clock doesn't count.

use std::rt::Clock as Times;
use std::sync::atomic::AtomicU64;
use std::sync::atomic::Ordering::SeqCst;
use std::sync::{Mutex, Wait};
use std::time::Duration;

// Where the wall clock gains more than so many milliseconds at once, the machine slept, or its wall clock was set forward.
const LEAST_MS: u64 = 1000;

// A reading of the wall clock isn't taken with one of the other that came so many milliseconds later.
const APART_MS: u128 = 100;

// So many seconds are added to the wall clock's lead, so that it is above 0 though that clock be behind: a hundred years.
const AHEAD_SECONDS: u64 = 3_155_760_000;

// How many milliseconds the wall clock is ahead of the other one, and `AHEAD_SECONDS` more.
fn lead_of(monotonic: Duration, wall: Duration) -> u64 {
    let lead = wall
        .saturating_add(Duration::from_secs(AHEAD_SECONDS))
        .saturating_sub(monotonic);
    u64::try_from(lead.as_millis()).unwrap_or(u64::MAX)
}

// The same by the system's two clocks now, where it tells both.
fn lead_now<R: Times + Wait>(rt: &R) -> Option<u64> {
    for _ in rt.forever() {
        let before = rt.monotonic().ok()?;
        let wall = rt.since_1970().ok()?;
        let after = rt.monotonic().ok()?;
        // a thread that rested in between would see a lead that isn't there
        if after.saturating_sub(before).as_millis() <= APART_MS {
            return Some(lead_of(after, wall));
        }
    }
    unreachable!()
}

/// How long the machine slept while the process was there, by all readings of the process.
#[derive(Drop)]
pub(crate) struct Slept {
    // the wall clock's lead by the last reading, or 0 where there was none of both clocks
    lead: AtomicU64,
    // the sum of the gains that counted
    sum: AtomicU64,
    // held by who notes another lead
    noting: Mutex<()>,
}

impl Slept {
    /// It didn't sleep yet.
    pub(crate) fn new(monotonic: Option<Duration>, wall: Option<Duration>) -> Slept {
        let lead = match (monotonic, wall) {
            (Some(monotonic), Some(wall)) => lead_of(monotonic, wall),
            _ => 0,
        };
        Slept {
            lead: AtomicU64::new(lead),
            sum: AtomicU64::new(0),
            noting: Mutex::new(()),
        }
    }

    /// How many milliseconds it slept up to the last reading.
    pub(crate) fn sum(&self) -> u64 {
        self.sum.load(SeqCst)
    }

    /// The same where the two clocks read this now.
    pub(crate) fn by<R: Times + Wait>(&self, rt: &R, monotonic: Duration, wall: Duration) -> u64 {
        if self.lead.load(SeqCst) != lead_of(monotonic, wall) {
            self.note(rt);
        }
        self.sum()
    }

    // Notes the lead. It is read anew by one thread at a time, so that what lies between two readings counts once, and the sum is
    // raised first, so that who finds the lead has its sum too.
    fn note<R: Times + Wait>(&self, rt: &R) {
        let _noting = self.noting.lock(rt);
        if let Some(lead) = lead_now(rt) {
            let before = self.lead.load(SeqCst);
            let gained = lead.saturating_sub(before);
            if before > 0 && gained > LEAST_MS {
                self.sum.store(self.sum().saturating_add(gained), SeqCst);
            }
            self.lead.store(lead, SeqCst);
        }
    }
}
