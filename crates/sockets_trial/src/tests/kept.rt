//! Calls that use a connection that an earlier one left.

use super::{Act, CALL, Heard, LIMITS, ONE, Story, TWO, Watched, call, linked, listening, play};
use etcd_types::Bytes;
use outside::{AnswerEnd, CallKind};
use socket_limits::LinkLimits;
use std::alloc::Global;
use std::net::{Net, TcpListener, TcpStream};
use std::rt::Clock as Times;
use std::sync::Wait;
use std::test::Fail;
use std::thread;
use std::thread::Threads;
use std::time::Duration;

/// A call that writes: the answer that is wanted, how it is given back, and what the call is to come to.
#[derive(Clone, Copy)]
struct Row {
    wanted: &'static [u8],
    how: AnswerEnd,
    heard: Heard,
}

impl Row {
    fn new(wanted: &'static [u8], how: AnswerEnd, heard: Heard) -> Row {
        Row { wanted, how, heard }
    }

    /// A call whose answer comes, and is read whole.
    fn whole(wanted: &'static [u8]) -> Row {
        Row::new(wanted, AnswerEnd::Whole, Heard::Wanted)
    }
}

/// Makes these calls to the one member, one every 200 ms, and says how many of them came to what they are to.
fn called<R: Net<Stream = TcpStream> + Times + Wait + Eprint + Drop + Copy>(
    rt: R,
    alloc: Global,
    address: &Bytes,
    rows: &[Row],
) -> Result<usize, Fail> {
    let mut link = linked(rt, alloc, &[address], LIMITS)?;
    let mut count = 0usize;
    for row in rows {
        if call(&mut link, 1, CallKind::Writes, row.wanted, row.how) == row.heard {
            count = count.saturating_add(1);
        }
        thread::sleep(&rt, Duration::from_millis(200));
    }
    Ok(count)
}

/// A member that does these acts while calls are made to it: how many calls came to what they are to, and how many acts were done.
fn played<
    R: Net<Listener = TcpListener, Stream = TcpStream>
        + Wait
        + Times
        + Eprint
        + Threads
        + Drop
        + Copy
        + Send
        + 'static,
>(rt: R, alloc: Global, story: Story, rows: &[Row]) -> Result<(usize, usize), Fail> {
    let (listener, address) = listening(&rt, alloc)?;
    let handle = thread::spawn(&rt, move || -> usize { play(&rt, &listener, story) })?;
    let count = called(rt, alloc, &address, rows)?;
    Ok((count, handle.join(&rt)))
}

const THREE_CALLS: Story = Story {
    lots: &[&[
        Act::Hear(CALL),
        Act::Say(ONE),
        Act::Hear(CALL),
        Act::Say(b"tw"),
        Act::Rest(100),
        Act::Say(b"o"),
        Act::Hear(CALL),
        Act::Say(ONE),
    ]],
};

#[test]
fn calls_use_one_connection(rt: HostRuntime) -> Result<(), Fail> {
    let rows = [Row::whole(ONE), Row::whole(TWO), Row::whole(ONE)];
    assert_eq!(rt; played(rt, rt.alloc(), THREE_CALLS, &rows)?, (3, 8));
    Ok(())
}

const CLOSED: Story = Story {
    lots: &[
        &[Act::Hear(CALL), Act::Say(ONE)],
        &[Act::Hear(CALL), Act::Say(TWO)],
    ],
};

#[test]
fn a_connection_that_was_closed_is_not_used(rt: HostRuntime) -> Result<(), Fail> {
    let rows = [Row::whole(ONE), Row::whole(TWO)];
    assert_eq!(rt; played(rt, rt.alloc(), CLOSED, &rows)?, (2, 4));
    Ok(())
}

/// It talks behind the answer, and with it.
const TALKING: Story = Story {
    lots: &[
        &[
            Act::Hear(CALL),
            Act::Say(ONE),
            Act::Rest(100),
            Act::Say(ONE),
            Act::Gone,
        ],
        &[Act::Hear(CALL), Act::Say(b"one more"), Act::Gone],
        &[Act::Hear(CALL), Act::Say(TWO)],
    ],
};

#[test]
fn a_connection_that_says_more_than_was_asked_is_not_used(rt: HostRuntime) -> Result<(), Fail> {
    let rows = [Row::whole(ONE), Row::whole(ONE), Row::whole(TWO)];
    assert_eq!(rt; played(rt, rt.alloc(), TALKING, &rows)?, (3, 10));
    Ok(())
}

const CLOSING_OR_CUT: Story = Story {
    lots: &[
        &[Act::Hear(CALL), Act::Say(ONE), Act::Gone],
        &[Act::Hear(CALL), Act::Say(ONE), Act::Gone],
        &[Act::Hear(CALL), Act::Say(b"tw")],
        &[Act::Hear(CALL), Act::Say(ONE)],
    ],
};

#[test]
fn a_connection_is_dropped_that_is_to_be_closed_or_broke(rt: HostRuntime) -> Result<(), Fail> {
    let rows = [
        Row::new(ONE, AnswerEnd::Broken, Heard::Wanted),
        Row::new(ONE, AnswerEnd::TooLong, Heard::Wanted),
        Row::new(TWO, AnswerEnd::Whole, Heard::Other),
        Row::whole(ONE),
    ];
    assert_eq!(rt; played(rt, rt.alloc(), CLOSING_OR_CUT, &rows)?, (4, 10));
    Ok(())
}

const FAILING: Story = Story {
    lots: &[
        &[Act::Hear(CALL), Act::Say(ONE), Act::Hear(CALL)],
        &[Act::Hear(CALL), Act::Say(TWO)],
    ],
};

#[test]
fn a_call_that_failed_is_not_sent_again(rt: HostRuntime) -> Result<(), Fail> {
    // the second call came, and its connection was closed without an answer: a call that is sent again would have the third's
    let rows = [
        Row::whole(ONE),
        Row::new(TWO, AnswerEnd::Whole, Heard::Failed),
        Row::whole(TWO),
    ];
    assert_eq!(rt; played(rt, rt.alloc(), FAILING, &rows)?, (3, 5));
    Ok(())
}

const RESTING: Story = Story {
    lots: &[
        &[Act::Hear(CALL), Act::Say(ONE), Act::Gone],
        &[Act::Hear(CALL), Act::Say(TWO)],
    ],
};

#[test]
fn a_connection_that_rested_too_long_is_not_used(rt: HostRuntime) -> Result<(), Fail> {
    let alloc: Global = rt.alloc();
    let (listener, address) = listening(&rt, alloc)?;
    let handle = thread::spawn(&rt, move || -> usize { play(&rt, &listener, RESTING) })?;
    let mut link = linked(rt, alloc, &[&address], LIMITS)?;
    for wanted in [ONE, TWO] {
        let heard = call(&mut link, 1, CallKind::Writes, wanted, AnswerEnd::Whole);
        assert_eq!(rt; heard, Heard::Wanted);
        thread::sleep(&rt, Duration::from_millis(3_100));
    }
    assert_eq!(rt; handle.join(&rt), 5);
    Ok(())
}

/// Reads have two seconds here.
const SHORT_READS: LinkLimits = LinkLimits {
    read: 2_000,
    ..LIMITS
};

/// A read isn't answered on a connection on which a write was; a write is answered late on one on which a read was.
const MIXED: Story = Story {
    lots: &[
        &[Act::Hear(CALL), Act::Say(ONE), Act::Hear(CALL), Act::Gone],
        &[
            Act::Hear(CALL),
            Act::Say(ONE),
            Act::Hear(CALL),
            Act::Rest(2_500),
            Act::Say(TWO),
        ],
    ],
};

#[test]
fn each_call_on_a_connection_has_its_own_limit(rt: HostRuntime) -> Result<(), Fail> {
    let alloc: Global = rt.alloc();
    let (listener, address) = listening(&rt, alloc)?;
    let handle = thread::spawn(&rt, move || -> usize { play(&rt, &listener, MIXED) })?;
    let mut link = linked(rt, alloc, &[&address], SHORT_READS)?;
    let start = rt.monotonic()?;
    let rows = [
        (CallKind::Writes, ONE, Heard::Wanted),
        (CallKind::Reads, ONE, Heard::Failed),
        (CallKind::Reads, ONE, Heard::Wanted),
        (CallKind::Writes, TWO, Heard::Wanted),
    ];
    for (kind, wanted, heard) in rows {
        assert_eq!(rt; call(&mut link, 1, kind, wanted, AnswerEnd::Whole), heard);
    }
    assert!(rt; rt.monotonic()?.saturating_sub(start) < Duration::from_secs(15));
    assert_eq!(rt; handle.join(&rt), 9);
    Ok(())
}

/// It says something 150 ms behind its first answer, which nobody asked for.
const UNASKED: Story = Story {
    lots: &[
        &[
            Act::Hear(CALL),
            Act::Say(ONE),
            Act::Rest(150),
            Act::Say(ONE),
            Act::Gone,
        ],
        &[Act::Hear(CALL), Act::Say(TWO)],
    ],
};

#[test]
fn a_second_answer_is_not_the_next_calls(rt: HostRuntime) -> Result<(), Fail> {
    let alloc: Global = rt.alloc();
    // whichever reading of the clock takes so long that the second answer comes in the midst of the next call's sending
    for reading in 1..4 {
        let (listener, address) = listening(&rt, alloc)?;
        let handle = thread::spawn(&rt, move || -> usize { play(&rt, &listener, UNASKED) })?;
        let system = Watched::new(&rt);
        let mut link = linked(&system, alloc, &[&address], LIMITS)?;
        let first = call(&mut link, 1, CallKind::Writes, ONE, AnswerEnd::Whole);
        system.slow(reading);
        let next = call(&mut link, 1, CallKind::Writes, TWO, AnswerEnd::Whole);
        assert_eq!(rt; (first, next), (Heard::Wanted, Heard::Wanted), "{reading}");
        assert_eq!(rt; handle.join(&rt), 7, "{reading}");
    }
    Ok(())
}
