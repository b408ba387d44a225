//! A store over so many keys of ten bytes with values of a hundred, once it made so many revisions: puts, gets,
//! transactions of five puts and five gets, what a watch is pushed, ranges of 100 keys, and the end of a lease with 1,000 keys.
//! With the word `stops` it waits for a line of its input once the revisions are made, once they are compacted, and once as many
//! versions are kept again, so that its memory can be read; and it measures the compaction alone.

use crate::requests::{Bench, PUSHES};
use std::alloc::Global;
use std::io;
use std::time::Instant;

pub const USAGE: &str = "benches store KEYS REVISIONS [stops]";

/// How often each request is made.
const TRIES: u64 = 10_000;

fn tell(rt: &HostRuntime, what: &str, count: u64, start: &Instant) -> io::Result<()> {
    let each = start.elapsed(rt)?.as_nanos() / u128::from(count.max(1));
    println!(rt; "{what}: {each} ns each")
}

fn measure_requests(rt: &HostRuntime, bench: &mut Bench) -> io::Result<()> {
    let start = Instant::now(rt)?;
    for number in 0..TRIES {
        bench.make_key(number)?;
    }
    tell(rt, "making a key and a value", TRIES, &start)?;
    let start = Instant::now(rt)?;
    for number in 0..TRIES {
        bench.put(number, 0)?;
    }
    tell(rt, "put", TRIES, &start)?;
    let start = Instant::now(rt)?;
    for number in 0..TRIES {
        bench.get(number)?;
    }
    tell(rt, "get", TRIES, &start)?;
    let start = Instant::now(rt)?;
    for number in 0..TRIES {
        bench.transact(number)?;
    }
    tell(rt, "transaction of ten operations", TRIES, &start)?;
    let start = Instant::now(rt)?;
    for number in 0..1_000u64 {
        bench.range(number)?;
    }
    tell(rt, "range of 100", 1_000, &start)
}

fn measure_watch(rt: &HostRuntime, bench: &mut Bench) -> io::Result<()> {
    bench.open_watch()?;
    let mut pushes = 0u128;
    for number in 0..PUSHES {
        bench.put(number, 0)?;
        let start = Instant::now(rt)?;
        bench.push()?;
        pushes = pushes.saturating_add(start.elapsed(rt)?.as_nanos());
    }
    let each = pushes / u128::from(PUSHES);
    println!(rt; "push to a watch behind a put, with two readings of the clock: {each} ns each")
}

fn measure_lease(rt: &HostRuntime, bench: &mut Bench) -> io::Result<()> {
    bench.grant(7)?;
    for number in 0..1_000u64 {
        bench.put(number, 7)?;
    }
    let start = Instant::now(rt)?;
    bench.revoke(7)?;
    tell(rt, "revoke of a lease with 1,000 keys", 1, &start)?;
    let kept = bench.kept();
    println!(rt; "{kept} versions kept")
}

fn measure(rt: &HostRuntime, bench: &mut Bench) -> io::Result<()> {
    measure_requests(rt, bench)?;
    measure_watch(rt, bench)?;
    measure_lease(rt, bench)
}

fn wait(rt: &HostRuntime, what: &str) -> io::Result<()> {
    println!(rt; "{what}")?;
    let mut line = String::new(rt.alloc());
    rt.stdin().read_line(&mut line)?;
    Ok(())
}

fn make(bench: &mut Bench, revisions: u64) -> io::Result<()> {
    for number in 0..revisions {
        bench.put(number, 0)?;
    }
    Ok(())
}

fn measure_memory(rt: &HostRuntime, bench: &mut Bench, revisions: u64) -> io::Result<()> {
    let kept = bench.kept();
    println!(rt; "{kept} versions kept")?;
    wait(rt, "made")?;
    let start = Instant::now(rt)?;
    bench.compact()?;
    tell(rt, "compaction, a revision", revisions, &start)?;
    let kept = bench.kept();
    println!(rt; "{kept} versions kept")?;
    wait(rt, "compacted")?;
    make(bench, revisions.saturating_sub(kept))?;
    let kept = bench.kept();
    println!(rt; "{kept} versions kept")?;
    wait(rt, "again")
}

/// Measures what the words ask for.
pub fn run(rt: &HostRuntime, alloc: Global, words: &[String]) -> io::Result<()> {
    let (keys, revisions, stops) = match words {
        [keys, revisions] => (keys, revisions, false),
        [keys, revisions, _] => (keys, revisions, true),
        _ => return println!(rt; "{USAGE}"),
    };
    let keys = keys.as_str().parse::<u64>().unwrap_or(1_000);
    let revisions = revisions.as_str().parse::<u64>().unwrap_or(1_000);
    let mut bench = Bench::new(alloc, keys)?;
    make(&mut bench, revisions)?;
    if stops {
        measure_memory(rt, &mut bench, revisions)
    } else {
        measure(rt, &mut bench)
    }
}
