//! Members that don't answer: where their calls go, and what is said of them.

use super::{
    Act, CALL, Heard, LIMITS, ONE, Story, TWO, Watched, call, hear, linked, listening, members_at,
    play,
};
use member_links::{Asked, Health, Members, SocketLink};
use outside::{AnswerEnd, CallKind, Link};
use std::alloc::Global;
use std::net::Net;
use std::rt::Clock as Times;
use std::sync::{Arc, Wait};
use std::test::Fail;
use std::thread;
use std::time::Duration;

const TWICE: Story = Story {
    lots: &[
        &[Act::Hear(CALL), Act::Say(ONE)],
        &[Act::Hear(CALL)],
        &[Act::Hear(CALL), Act::Say(TWO)],
        &[Act::Hear(CALL), Act::Say(ONE)],
    ],
};

/// Calls, each with how many milliseconds are waited before it, its member, its kind, the answer that is wanted, what it comes to, and how
/// many lines there are then.
const REPORTED: &[(u64, u32, CallKind, &[u8], Heard, u64)] = &[
    (0, 1, CallKind::Reads, ONE, Heard::Wanted, 0),
    // a connection that is closed without an answer
    (0, 1, CallKind::Reads, ONE, Heard::Failed, 0),
    // the second one takes no call: the first one stands in, but not where it is asked itself
    (0, 2, CallKind::Asks, ONE, Heard::Unsent, 1),
    (0, 2, CallKind::Writes, TWO, Heard::Wanted, 1),
    (0, 2, CallKind::Scans, ONE, Heard::Wanted, 1),
    // there is no third one
    (0, 3, CallKind::Reads, ONE, Heard::Unsent, 1),
    // now neither takes a call; the second one is tried all the same
    (1_100, 2, CallKind::Reads, ONE, Heard::Unsent, 2),
    (1_100, 2, CallKind::Reads, ONE, Heard::Unsent, 2),
];

#[test]
fn calls_go_to_the_next_member_where_one_takes_none(rt: HostRuntime) -> Result<(), Fail> {
    let alloc: Global = rt.alloc();
    let (listener, address) = listening(&rt, alloc)?;
    let (none, gone) = listening(&rt, alloc)?;
    drop(none);
    let handle = thread::spawn(&rt, move || -> usize { play(&rt, &listener, TWICE) })?;
    let system = Watched::new(&rt);
    let mut link = linked(&system, alloc, &[&address, &gone], LIMITS)?;
    for (pause, member, kind, wanted, heard, lines) in REPORTED {
        thread::sleep(&rt, Duration::from_millis(*pause));
        let came = call(&mut link, *member, *kind, wanted, AnswerEnd::Broken);
        assert_eq!(rt; (came, system.lines()), (*heard, *lines), "{member}");
    }
    assert_eq!(rt; handle.join(&rt), 7);
    Ok(())
}

#[test]
fn askings_say_whether_a_member_answers(rt: HostRuntime) -> Result<(), Fail> {
    let alloc: Global = rt.alloc();
    let (_listener, address) = listening(&rt, alloc)?;
    let system = Watched::new(&rt);
    let members = members_at(&system, alloc, &[&address])?;
    // what is waited, how the asking went, the health behind it, and how many lines there are then
    let askings = [
        (0, Asked::Well, Health::Up, 0),
        (0, Asked::InVain, Health::Suspect, 0),
        (0, Asked::Well, Health::Up, 0),
        (0, Asked::InVain, Health::Suspect, 0),
        (0, Asked::InVain, Health::Down, 1),
        (0, Asked::InVain, Health::Down, 1),
        // not within the same second
        (0, Asked::Well, Health::Up, 1),
        (1_100, Asked::Well, Health::Up, 2),
        (1_100, Asked::Barred, Health::Barred, 3),
        (0, Asked::Barred, Health::Barred, 3),
        (0, Asked::InVain, Health::Down, 3),
        (1_100, Asked::Well, Health::Up, 4),
    ];
    for (pause, came, health, lines) in askings {
        thread::sleep(&rt, Duration::from_millis(pause));
        members.asked(&system, 1, came);
        assert_eq!(rt; (members.health(1), system.lines()), (health, lines));
    }
    // there is no second one
    members.asked(&system, 2, Asked::Well);
    assert_eq!(rt; members.health(2), Health::Down);
    Ok(())
}

#[test]
fn a_member_that_may_not_answer_is_asked_at_once(rt: HostRuntime) -> Result<(), Fail> {
    let alloc: Global = rt.alloc();
    let (none, address) = listening(&rt, alloc)?;
    drop(none);
    let members = members_at(&rt, alloc, &[&address])?;
    let others = Arc::try_clone(&members)?;
    let began = rt.monotonic()?;
    // one that rests four seconds more is woken by a call that fails
    let caller = thread::spawn(&rt, move || -> Heard {
        thread::sleep(&rt, Duration::from_millis(1_500));
        let mut link = SocketLink::new(rt, others, LIMITS);
        call(&mut link, 1, CallKind::Reads, ONE, AnswerEnd::Whole)
    })?;
    members.rest(&rt, 1);
    assert_eq!(rt; caller.join(&rt), Heard::Unsent);
    assert_eq!(rt; members.health(1), Health::Down);
    members.rest(&rt, 1);
    let took = rt.monotonic()?.saturating_sub(began);
    assert!(rt;
        took.as_millis() >= 2_400 && took.as_millis() < 4_500,
        "{took:?}"
    );
    Ok(())
}

#[test]
fn no_call_goes_to_a_member_that_refused_to_be_asked(rt: HostRuntime) -> Result<(), Fail> {
    let alloc: Global = rt.alloc();
    let (listener, address) = listening(&rt, alloc)?;
    let members = members_at(&rt, alloc, &[&address])?;
    let mut link = SocketLink::new(rt, Arc::try_clone(&members)?, LIMITS);
    members.asked(&rt, 1, Asked::Barred);
    assert!(rt; link.begin(1, CallKind::Reads, CALL).is_err());
    assert!(rt; link.begin(1, CallKind::Watches(1), CALL).is_err());
    // it is asked again
    assert!(rt; link.begin(1, CallKind::Asks, CALL).is_ok());
    drop(listener);
    Ok(())
}

/// Says of a member in a while that it didn't answer, twice.
fn fells<R: Times + Wait + Eprint>(rt: &R, members: &Members) {
    thread::sleep(rt, Duration::from_millis(300));
    members.asked(rt, 1, Asked::InVain);
    members.asked(rt, 1, Asked::InVain);
}

#[test]
fn a_scan_is_waited_for_while_its_member_is_not_down(rt: HostRuntime) -> Result<(), Fail> {
    let alloc: Global = rt.alloc();
    let (listener, address) = listening(&rt, alloc)?;
    let slow = Story {
        lots: &[&[
            Act::Hear(CALL),
            Act::Rest(1_300),
            Act::Say(ONE),
            Act::Rest(1_300),
        ]],
    };
    let handle = thread::spawn(&rt, move || -> usize { play(&rt, &listener, slow) })?;
    let members = members_at(&rt, alloc, &[&address])?;
    let mut link = SocketLink::new(rt, Arc::try_clone(&members)?, LIMITS);
    let Ok(mut answer) = link.begin(1, CallKind::Scans, CALL) else {
        return Err(Fail::new("no scan was begun"));
    };
    assert_eq!(rt;
        (hear(&mut answer, ONE), members.health(1)),
        (Heard::Wanted, Health::Suspect)
    );
    // what comes next is cut off, since the member is down by then
    let asked = Arc::try_clone(&members)?;
    let feller = thread::spawn(&rt, move || fells(&rt, &asked))?;
    assert_eq!(rt; hear(&mut answer, TWO), Heard::Failed);
    feller.join(&rt);
    link.end(answer, AnswerEnd::Broken);
    assert_eq!(rt; handle.join(&rt), 4);
    Ok(())
}
