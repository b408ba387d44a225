//! Streams that nobody wants any more.

use super::{CALL, LIMITS, listening, members_at};
use member_links::SocketLink;
use outside::{AnswerEnd, CallKind, Link, Source};
use std::alloc::Global;
use std::sync::Arc;
use std::test::Fail;

#[test]
fn a_stream_that_nobody_wants_ends_though_its_member_is_silent(
    rt: HostRuntime,
) -> Result<(), Fail> {
    let alloc: Global = rt.alloc();
    let (_listener, address) = listening(&rt, alloc)?;
    let members = members_at(&rt, alloc, &[&address])?;
    let mut follower = SocketLink::new(rt, Arc::try_clone(&members)?, LIMITS);
    let mut worker = SocketLink::new(rt, members, LIMITS);
    let Ok(mut stream) = follower.begin(1, CallKind::Watches(7), CALL) else {
        return Err(Fail::new("no stream was begun"));
    };
    worker.forget(7);
    assert_eq!(rt; stream.read(&mut [0u8; 16]), Ok(0));
    follower.end(stream, AnswerEnd::Broken);
    Ok(())
}

#[test]
fn a_stream_that_nobody_wants_is_not_begun(rt: HostRuntime) -> Result<(), Fail> {
    let alloc: Global = rt.alloc();
    let (_listener, address) = listening(&rt, alloc)?;
    let members = members_at(&rt, alloc, &[&address])?;
    let mut follower = SocketLink::new(rt, Arc::try_clone(&members)?, LIMITS);
    let mut worker = SocketLink::new(rt, members, LIMITS);
    worker.forget(8);
    worker.forget(9);
    assert!(rt; follower.begin(1, CallKind::Watches(7), CALL).is_ok());
    assert!(rt; follower.begin(1, CallKind::Watches(8), CALL).is_err());
    // where there are many the oldest is kept no longer
    for number in 10..1_034 {
        worker.forget(number);
    }
    assert!(rt; follower.begin(1, CallKind::Watches(9), CALL).is_ok());
    assert!(rt; follower.begin(1, CallKind::Watches(1_033), CALL).is_err());
    Ok(())
}
