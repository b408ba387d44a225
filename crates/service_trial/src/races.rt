//! Races wake-ups: pairs of passes play a letter to and fro through one mailbox, and each waits until its letter is there.

ghost use Rattle.std.specs.Prelude.{◌≡◌};
ghost use Rattle.std.specs.Arc.{arc_value};

use crate::mailbox::{Mailbox, is_of_crew};
use outside::MemClock;
use std::alloc::Global;
use std::rt::Clock as Times;
use std::sync::{Arc, Wait};
use std::thread::Threads;
use std::time::{Duration, Instant};
use std::{io, thread};
use table_rows::{Wrong, parts};
use turn_hub::{Hub, LONGEST_REST_SECONDS, Pass};

// Takes the name's letter and answers it, resting while there is none. Says how many rests lasted to their end.
fn answer<R: Wait + Times>(rt: &R, hub: &Hub<Mailbox>, pass: &mut Pass<Mailbox>, name: u32) -> u64
    requires { pass.old.hub ≡ hub.now }
    ensures { pass.new.hub ≡ hub.now }
{
    let mut clock = MemClock::new(0);
    let mut lost = 0u64;
    for _ in rt.forever() {
        if hub.step(rt, pass, name, &mut clock) == Ok(true) {
            return lost;
        }
        let start = Instant::now(rt);
        hub.wait(rt, pass);
        if has_ended(rt, start) {
            lost = lost.saturating_add(1);
        }
    }
    unreachable!()
}

// Whether a rest that began then lasted to its end, as one whose wake-up was lost does. It counts as one where the time can't be told.
fn has_ended<R: Times>(rt: &R, start: io::Result<Instant>) -> bool {
    let Ok(start) = start else {
        return true;
    };
    match start.elapsed(rt) {
        Ok(rested) => rested >= Duration::from_secs(LONGEST_REST_SECONDS),
        Err(_) => true,
    }
}

// Takes so many letters, and says how many rests lasted to their end.
fn play<R: Wait + Times>(
    rt: &R,
    hub: &Hub<Mailbox>,
    mut pass: Pass<Mailbox>,
    name: u32,
    letters: u64,
) -> u64
    requires { pass.hub ≡ hub.now }
{
    let mut lost = 0u64;
    for _ in 0..letters {
        lost = lost.saturating_add(answer(rt, hub, &mut pass, name));
    }
    lost
}

// Lets the pairs play, and says how many wake-ups were lost.
fn play_all<R: Threads + Wait + Times + Copy + Send + 'static>(
    rt: R,
    alloc: Global,
    pairs: u32,
    letters: u64,
) -> Option<u64> {
    let (hub, mut first) = Hub::new(alloc, Mailbox::new()).ok()?;
    let hub = Arc::new(alloc, hub).ok()?;
    let mut handles = Vec::new(alloc);
    for name in 0..2 * pairs.min(32) {
        let shared = Arc::try_clone(&hub).ok()?;
        let mut pass = hub.split(&mut first);
        if is_of_crew(name) {
            pass.rest_in_crew(name);
        } else {
            pass.rest_in_lot(name / 2);
        }
        let handle = thread::spawn(
            &rt,
            move || -> u64
                requires { pass.hub ≡ arc_value shared }
            { play(&rt, &shared, pass, name, letters) },
        )
        .ok()?;
        handles.push(handle).ok()?;
    }
    let mut lost = 0u64;
    for handle in handles {
        lost = lost.saturating_add(handle.join(&rt));
    }
    Some(lost)
}

/// Shows how many wake-ups a race of a row loses.
pub fn show_race<R: Threads + Wait + Times + Print + Copy + Send + 'static>(
    rt: R,
    alloc: Global,
    row: &str,
) -> Result<(), Wrong> {
    let (pairs, letters) = parts(row, " ")?;
    let (Ok(pairs), Ok(letters)) = (pairs.parse::<u32>(), letters.parse::<u64>()) else {
        return Err(Wrong::Word);
    };
    let Some(lost) = play_all(rt, alloc, pairs, letters) else {
        return Err(Wrong::NoMemory);
    };
    println!(rt; "{pairs} pairs, {letters} letters to each pass: {lost} wake-ups lost")?;
    Ok(())
}
