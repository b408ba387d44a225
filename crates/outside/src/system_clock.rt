ghost use Rattle.std.specs.Prelude.{◌≡◌, ℕ, ◌≤◌, IfOk};

use crate::clock::Clock;
use crate::slept::Slept;
use etcd_types::NoMemory;
use std::alloc::Global;
use std::marker::Model;
use std::rt::Clock as Times;
use std::sync::atomic::AtomicU64;
use std::sync::atomic::Ordering::SeqCst;
use std::sync::{Arc, Wait};
use std::thread;
use std::time::Duration;

// How many milliseconds to pause where the system tells no time.
const PAUSE_MS: u64 = 100;

// How far a leap goes, in milliseconds: some 35 years.
const LEAP_MS: u64 = 1 << 40;

// What the clocks of a process share: where the system's two clocks stood at the start, where they told it; how long the machine
// slept since; and the greatest reading.
#[derive(Drop)]
struct Shared {
    monotonic: Option<Duration>,
    wall: Option<Duration>,
    slept: Slept,
    greatest: AtomicU64,
}

/// The system's time since the start of the process, in milliseconds. Each further clock of the process is a `copy` of its
/// first one, and all of them together read one that never falls.
///
/// It goes on while the machine sleeps, as the leases of the store do. The system's monotonic clock stands then, and its
/// wall clock doesn't; but the wall clock may be set. So a reading is the monotonic one plus what the wall clock gained on it,
/// each time that this was more than a second from one reading of the process to the next: neither a wall clock that was set back
/// before nor one that was set forward and back again hides a sleep. Where the system refuses one of the two, the other counts;
/// where it refuses both, the clock pauses and reads again.
#[derive(Drop)]
pub struct SystemClock<R> {
    rt: R,
    shared: Arc<Shared, Global>,
    last: u64,
    faults: u64,
}

impl<R> Model for SystemClock<R> {
    ghost use Rattle.outside.specs.Clocks.{Clocked};

    ghost Value = { Clocked };

    ghost view = { λ c. record { last = c.last; faults = c.faults } };
}

impl<R: Times + Wait + Drop> SystemClock<R> {
    /// The first clock of the process, which reads 0 now. It may wait for a system that tells no time.
    pub fn new(alloc: Global, rt: R) -> Result<SystemClock<R>, NoMemory>
        ensures { IfOk result (λ c. c ≡ record { last = 0; faults = 0 }) }
    {
        let (monotonic, wall) = started(&rt);
        let shared = Shared {
            monotonic,
            wall,
            slept: Slept::new(monotonic, wall),
            greatest: AtomicU64::new(0),
        };
        let shared = Arc::new(alloc, shared)?;
        Ok(SystemClock {
            rt,
            shared,
            last: 0,
            faults: 0,
        })
    }

    /// A further clock of the process, which asks `rt`.
    pub fn copy<Q: Times + Wait + Drop>(&self, rt: Q) -> Result<SystemClock<Q>, NoMemory>
        ensures { IfOk result (λ c. c ≡ record { last = 0; faults = 0 }) }
    {
        let shared = Arc::try_clone(&self.shared)?;
        Ok(SystemClock {
            rt,
            shared,
            last: 0,
            faults: 0,
        })
    }

    /// All clocks of the process read a time from now on that is behind whatever was to last up to some later moment: 2^40 milliseconds
    /// more than the greatest reading. They stand there until the system's time comes so far.
    pub fn leap(&self) {
        let _ = self
            .shared
            .greatest
            .fetch_update(SeqCst, SeqCst, |held| Some(held.saturating_add(LEAP_MS)));
    }

    /// How many readings the system refused this clock, or 2^64 - 1 where that is more.
    pub fn faults(&self) -> u64
        ensures { result ≡ self.now.faults }
    {
        self.faults
    }
}

impl<R: Times + Wait> Clock for SystemClock<R> {
    ghost last = { λ c. c.last };

    fn now(&mut self) -> u64 {
        for _ in self.rt.forever() {
            // in this order, so that time between the two is not taken for a gain
            let wall = self.rt.since_1970().ok();
            let monotonic = self.rt.monotonic().ok();
            if monotonic.is_none() || wall.is_none() {
                self.faults = self.faults.saturating_add(1);
            }
            if let Some(time) = self.shared.reading(&self.rt, monotonic, wall) {
                self.last = self.last.max(time);
                return self.last;
            }
            thread::sleep(&self.rt, Duration::from_millis(PAUSE_MS));
        }
        unreachable!()
    }

    fn pause(&mut self, millis: u64)
        ensures stays { self.new ≡ self.old }
    {
        thread::sleep(&self.rt, Duration::from_millis(millis));
    }
}

impl Shared {
    // What the time is by these two, and by all earlier readings of the process. There is none where both are refused.
    fn reading<R: Times + Wait>(
        &self,
        rt: &R,
        monotonic: Option<Duration>,
        wall: Option<Duration>,
    ) -> Option<u64> {
        let time = match (since(self.monotonic, monotonic), monotonic, wall) {
            (Some(passed), Some(monotonic), Some(wall)) => {
                passed.saturating_add(self.slept.by(rt, monotonic, wall))
            }
            (Some(passed), _, _) => passed.saturating_add(self.slept.sum()),
            (None, _, wall) => since(self.wall, wall)?,
        };
        Some(raise(&self.greatest, time))
    }
}

// What the system's two clocks read, one of them at the least.
fn started<R: Times + Wait>(rt: &R) -> (Option<Duration>, Option<Duration>) {
    for _ in rt.forever() {
        // in the other order than a reading has
        let read = (rt.monotonic().ok(), rt.since_1970().ok());
        if read.0.is_some() || read.1.is_some() {
            return read;
        }
        thread::sleep(rt, Duration::from_millis(PAUSE_MS));
    }
    unreachable!()
}

// How many milliseconds passed since the start, where both were told.
fn since(start: Option<Duration>, time: Option<Duration>) -> Option<u64> {
    let passed = time?.saturating_sub(start?);
    Some(u64::try_from(passed.as_millis()).unwrap_or(u64::MAX))
}

// Raises the word to the number where it is below, and gives what it then is.
fn raise(word: &AtomicU64, number: u64) -> u64
    ensures { number ≤ result }
{
    match word.fetch_update(SeqCst, SeqCst, |held| (held < number).then_some(number)) {
        Ok(_) => number,
        Err(held) => held.max(number),
    }
}
