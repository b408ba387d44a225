//! How fast threads step one hub. The words are the machine (`plain`, 80 bytes; `large`, 1 KB; `boxed`, 1 KB behind a
//! box), the number of threads that step, the number of steps of each, and the number of idle passes.

ghost use Rattle.std.specs.Prelude.{◌≡◌, Bool};
ghost use Rattle.std.specs.Arc.{arc_value};

use crate::machines::{Boxed, ENDED, Tally};
use outside::{CREWS, Machine, MemClock};
use std::alloc::Global;
use std::rt::Clock as Times;
use std::sync::{Arc, Wait};
use std::thread::Threads;
use std::time::{Duration, Instant};
use std::{io, thread};
use turn_hub::{Hub, Pass};

pub const USAGE: &str = "benches hub plain|large|boxed THREADS STEPS RESTING";

// Makes so many steps.
fn make_steps<M: Machine<Event = bool, Outcome = u64, Fault = ()>, R: Wait>(
    rt: &R,
    hub: &Hub<M>,
    pass: &mut Pass<M>,
    count: u64,
)
    requires event { (e : Bool) → M.may e }
    requires pass { pass.old.hub ≡ hub.now }
    ensures { pass.new.hub ≡ hub.now }
{
    let mut clock = MemClock::new(0);
    for _ in 0..count {
        let _ = hub.step(rt, pass, false, &mut clock);
    }
}

// Rests until the machine has ended.
fn rest<M: Machine<Event = bool, Outcome = u64, Fault = ()>, R: Wait>(
    rt: &R,
    hub: &Hub<M>,
    pass: &mut Pass<M>,
)
    requires event { (e : Bool) → M.may e }
    requires pass { pass.old.hub ≡ hub.now }
{
    let mut clock = MemClock::new(0);
    for _ in rt.forever() {
        if hub.step(rt, pass, false, &mut clock) == Ok(ENDED) {
            return;
        }
        hub.wait(rt, pass);
    }
}

// How many nanoseconds the threads take for all their steps.
fn measure<
    M: Machine<Event = bool, Outcome = u64, Fault = ()> + Send + 'static,
    R: Threads + Wait + Times + Copy + Send + 'static,
>(rt: R, alloc: Global, machine: M, threads: u64, count: u64, resting: u64) -> Option<u128>
    requires { (e : Bool) → M.may e }
{
    let (hub, mut first) = Hub::new(alloc, machine).ok()?;
    let hub = Arc::new(alloc, hub).ok()?;
    let mut at_rest = Vec::new(alloc);
    for number in 0..resting {
        let shared = Arc::try_clone(&hub).ok()?;
        let mut pass = hub.split(&mut first);
        pass.rest_in_lot((number % u64::from(CREWS)) as u32);
        let handle = thread::spawn(
            &rt,
            move ||
                requires { ((e : Bool) → M.may e) × (pass.hub ≡ arc_value shared) }
            { rest(&rt, &shared, &mut pass) },
        )
        .ok()?;
        at_rest.push(handle).ok()?;
    }
    thread::sleep(&rt, Duration::from_millis(200));
    let start = Instant::now(&rt).ok()?;
    let mut stepping = Vec::new(alloc);
    for _ in 0..threads {
        let shared = Arc::try_clone(&hub).ok()?;
        let mut pass = hub.split(&mut first);
        let handle = thread::spawn(
            &rt,
            move ||
                requires { ((e : Bool) → M.may e) × (pass.hub ≡ arc_value shared) }
            { make_steps(&rt, &shared, &mut pass, count) },
        )
        .ok()?;
        stepping.push(handle).ok()?;
    }
    for handle in stepping {
        handle.join(&rt);
    }
    let taken = start.elapsed(&rt).ok()?.as_nanos();
    let _ = hub.step(&rt, &mut first, true, &mut MemClock::new(0));
    for handle in at_rest {
        handle.join(&rt);
    }
    Some(taken)
}

// The measure that the words ask for.
fn measured<R: Threads + Wait + Times + Copy + Send + 'static>(
    rt: R,
    alloc: Global,
    machine: &str,
    threads: u64,
    count: u64,
    resting: u64,
) -> Option<u128> {
    match machine {
        "plain" => measure(rt, alloc, Tally::<9>::new(), threads, count, resting),
        "large" => measure(rt, alloc, Tally::<127>::new(), threads, count, resting),
        "boxed" => {
            let parts = Box::new(alloc, Tally::<127>::new()).ok()?;
            measure(rt, alloc, Boxed::new(parts), threads, count, resting)
        }
        _ => None,
    }
}

/// Measures what the words ask for.
pub fn run<R: Threads + Wait + Times + Print + Copy + Send + 'static>(
    rt: R,
    alloc: Global,
    words: &[String],
) -> io::Result<()> {
    let [machine, threads, count, resting] = words else {
        return println!(rt; "{USAGE}");
    };
    let threads = threads.parse::<u64>().unwrap_or(1);
    let count = count.parse::<u64>().unwrap_or(1);
    let resting = resting.parse::<u64>().unwrap_or(0);
    let Some(taken) = measured(rt, alloc, machine.as_str(), threads, count, resting) else {
        return println!(rt; "no such machine, no memory or no thread");
    };
    let steps = u128::from(threads).saturating_mul(u128::from(count)).max(1);
    let rate = steps.saturating_mul(1_000_000_000) / taken.max(1);
    println!(rt;
        "{machine}, {threads} threads, {resting} at rest: {} ns a step, {rate} steps a second",
        taken / steps
    )
}
