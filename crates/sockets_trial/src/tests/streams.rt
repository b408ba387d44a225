//! Streams that are silent.

use super::{Act, CALL, Heard, LIMITS, ONE, Story, TWO, hear, hears, listening, members_at, play};
use member_links::{Asked, Members, SocketAnswer, SocketLink};
use outside::{AnswerEnd, CallKind, Link, Source};
use socket_limits::LinkLimits;
use std::alloc::Global;
use std::io::Write;
use std::net::{Net, TcpStream};
use std::rt::Clock as Times;
use std::sync::{Arc, Wait};
use std::test::Fail;
use std::thread;

/// A stream that is begun on the first of these members.
fn begun<R: Net<Stream = TcpStream> + Times + Wait + Eprint + Drop + Copy>(
    rt: R,
    members: &Arc<Members, Global>,
    limits: LinkLimits,
) -> Option<SocketAnswer<R>> {
    let mut link = SocketLink::new(rt, Arc::try_clone(members).ok()?, limits);
    link.begin(1, CallKind::Watches(1), CALL).ok()
}

/// A member whose stream is silent for three limits of silence between two things that it says.
const SILENT: Story = Story {
    lots: &[&[
        Act::Hear(CALL),
        Act::Say(ONE),
        Act::Rest(1_000),
        Act::Say(TWO),
    ]],
};

#[test]
fn a_silent_stream_goes_on_where_its_member_is_not_down(rt: HostRuntime) -> Result<(), Fail> {
    let alloc: Global = rt.alloc();
    let (listener, address) = listening(&rt, alloc)?;
    let handle = thread::spawn(&rt, move || -> usize { play(&rt, &listener, SILENT) })?;
    let members = members_at(&rt, alloc, &[&address])?;
    let Some(mut stream) = begun(rt, &members, LIMITS) else {
        return Err(Fail::new("no stream was begun"));
    };
    assert!(rt; stream.check().is_ok());
    // one asking in vain says nothing yet
    members.asked(&rt, 1, Asked::InVain);
    assert_eq!(rt;
        (hear(&mut stream, ONE), hear(&mut stream, TWO)),
        (Heard::Wanted, Heard::Wanted)
    );
    assert_eq!(rt; stream.read(&mut [0u8; 16]), Ok(0));
    assert_eq!(rt; handle.join(&rt), 4);
    Ok(())
}

#[test]
fn a_silent_stream_fails_where_its_member_is_down(rt: HostRuntime) -> Result<(), Fail> {
    let alloc: Global = rt.alloc();
    let (listener, address) = listening(&rt, alloc)?;
    let handle = thread::spawn(&rt, move || -> usize { play(&rt, &listener, SILENT) })?;
    let members = members_at(&rt, alloc, &[&address])?;
    let link = SocketLink::new(rt, Arc::try_clone(&members)?, LIMITS);
    let Some(stream) = begun(rt, &members, LIMITS) else {
        return Err(Fail::new("no stream was begun"));
    };
    members.asked(&rt, 1, Asked::InVain);
    members.asked(&rt, 1, Asked::InVain);
    // link and stream may go to another thread
    let follower = thread::spawn(&rt, move || -> bool {
        let (mut link, mut stream) = (link, stream);
        let heard = (hear(&mut stream, ONE), hear(&mut stream, TWO));
        link.end(stream, AnswerEnd::Broken);
        heard == (Heard::Wanted, Heard::Failed)
    })?;
    assert!(rt; follower.join(&rt));
    let _ = handle.join(&rt);
    Ok(())
}

#[test]
fn a_stream_that_is_silent_for_too_long_is_cut(rt: HostRuntime) -> Result<(), Fail> {
    let alloc: Global = rt.alloc();
    let (listener, address) = listening(&rt, alloc)?;
    let limits = LinkLimits { cut: 200, ..LIMITS };
    let members = members_at(&rt, alloc, &[&address])?;
    let Some(mut stream) = begun(rt, &members, limits) else {
        return Err(Fail::new("no stream was begun"));
    };
    let (mut member, _) = listener.accept()?;
    assert!(rt; hears(&mut member, CALL) && member.write(ONE).is_ok());
    assert_eq!(rt;
        (hear(&mut stream, ONE), hear(&mut stream, TWO)),
        (Heard::Wanted, Heard::Failed)
    );
    Ok(())
}
