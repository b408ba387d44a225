//! Calls on shared watches. The words are the number of watches and the number of ranges that they are spread
//! over: each range has a stream of its own. What is told is the microseconds that the delivery of one event of 100 bytes
//! to the first range's members takes, those of a take by each watch, and those of a join beside them.

use crate::spread::{Missing, Spread};
use std::alloc::Global;
use std::io;
use std::time::Instant;

pub const USAGE: &str = "benches watches WATCHES RANGES";

const ROUNDS: u64 = 100;

// Microseconds since then.
fn micros(rt: &HostRuntime, start: &Instant) -> io::Result<u128> {
    Ok(start.elapsed(rt)?.as_micros())
}

fn measure(rt: &HostRuntime, spread: &mut Spread, watches: u64) -> Result<(), Missing> {
    let mut delivering = 0u128;
    let mut taking = 0u128;
    for round in 0..ROUNDS {
        let start = Instant::now(rt)?;
        spread.deliver(round + 2)?;
        delivering = delivering.saturating_add(micros(rt, &start)?);
        let start = Instant::now(rt)?;
        spread.take_all(watches)?;
        taking = taking.saturating_add(micros(rt, &start)?);
    }
    let start = Instant::now(rt)?;
    for more in 0..ROUNDS {
        spread.join(watches.saturating_add(more), more)?;
    }
    let joining = micros(rt, &start)?;
    println!(rt;
        "{watches} watches: {ROUNDS} deliveries {delivering} us, {ROUNDS} takes of each {taking} us, {ROUNDS} joins {joining} us"
    )?;
    Ok(())
}

fn measure_spread(
    rt: &HostRuntime,
    alloc: Global,
    watches: u64,
    ranges: u64,
) -> Result<(), Missing> {
    let mut spread = Spread::new(alloc, ranges);
    for ticket in 0..watches {
        spread.join(ticket, ticket)?;
    }
    spread.open_all()?;
    spread.take_all(watches)?;
    measure(rt, &mut spread, watches)
}

/// Measures what the words ask for.
pub fn run(rt: &HostRuntime, alloc: Global, words: &[String]) -> io::Result<()> {
    let [watches, ranges] = words else {
        return println!(rt; "{USAGE}");
    };
    let (Ok(watches), Ok(ranges)) = (watches.parse::<u64>(), ranges.parse::<u64>()) else {
        return println!(rt; "{USAGE}");
    };
    match measure_spread(rt, alloc, watches, ranges) {
        Ok(()) => Ok(()),
        Err(_) => println!(rt; "no memory, or a clock failed"),
    }
}
