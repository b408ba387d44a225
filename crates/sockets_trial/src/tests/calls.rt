//! Calls, and their limits.

use super::{
    Act, CALL, Heard, LIMITS, ONE, Story, TWO, Watched, call, hear, linked, listening, play,
};
use outside::{AnswerEnd, CallKind, Link};
use socket_limits::LinkLimits;
use std::alloc::Global;
use std::test::Fail;
use std::thread;
use std::time::Duration;

#[test]
fn a_call_has_a_limit_and_fails_where_the_clock_does(rt: HostRuntime) -> Result<(), Fail> {
    let alloc: Global = rt.alloc();
    // it takes connections, and answers none
    let (_listener, address) = listening(&rt, alloc)?;
    let system = Watched::new(&rt);
    let limits = LinkLimits {
        read: 100,
        ..LIMITS
    };
    let mut link = linked(&system, alloc, &[&address], limits)?;
    let late = call(&mut link, 1, CallKind::Reads, ONE, AnswerEnd::Whole);
    assert_eq!(rt; late, Heard::Failed);
    // behind the reading that says since when the worker is inside a call, which may fail: the call's limit, a kept connection, the
    // connection's limit, connecting, sending, and reading
    for reading in 2..8 {
        system.refuse(reading);
        let heard = call(&mut link, 1, CallKind::Writes, ONE, AnswerEnd::Whole);
        let wanted = if reading < 7 {
            Heard::Unsent
        } else {
            Heard::Failed
        };
        assert_eq!(rt; heard, wanted, "{reading}");
    }
    // a stream uses no kept connection, and looks first whether its range rests, which may fail
    for reading in 2..6 {
        system.refuse(reading);
        assert!(rt;
            link.begin(1, CallKind::Watches(1), CALL).is_err(),
            "{reading}"
        );
    }
    Ok(())
}

/// Where the stream's call came over the connection that the first call left, nobody would hear it.
const APART: Story = Story {
    lots: &[
        &[Act::Hear(CALL), Act::Say(ONE), Act::Rest(100)],
        &[Act::Hear(CALL), Act::Say(TWO)],
    ],
};

#[test]
fn a_stream_has_a_connection_of_its_own(rt: HostRuntime) -> Result<(), Fail> {
    let alloc: Global = rt.alloc();
    let (listener, address) = listening(&rt, alloc)?;
    let handle = thread::spawn(&rt, move || -> usize { play(&rt, &listener, APART) })?;
    let mut link = linked(rt, alloc, &[&address], LIMITS)?;
    assert_eq!(rt;
        call(&mut link, 1, CallKind::Reads, ONE, AnswerEnd::Whole),
        Heard::Wanted
    );
    let Ok(mut stream) = link.begin(1, CallKind::Watches(1), CALL) else {
        return Err(Fail::new("no stream was begun"));
    };
    assert_eq!(rt; hear(&mut stream, TWO), Heard::Wanted);
    assert_eq!(rt; handle.join(&rt), 5);
    Ok(())
}
