//! What is counted of connections.

use super::ends::LIMITS;
use super::listening;
use outside::{Clock, MemClock, ReadMark, RequestKind, Sink, Source, WriteMark};
use socket_limits::Permits;
use sockets::{Client, SocketSink, SocketSource, SteppedClock, Tallies, ends_within};
use std::alloc::Global;
use std::net::{Net, TcpListener, TcpStream};
use std::str;
use std::sync::{Arc, Wait};
use std::test::Fail;

/// What a server has of a connection: its two ends, and the clock of its part.
type Counting<R> = (SocketSource<R>, SocketSink<R>, SteppedClock<MemClock>);

fn counted<R: Net<Listener = TcpListener, Stream = TcpStream> + Wait + Drop + Copy>(
    rt: R,
    alloc: Global,
    tallies: &Tallies,
) -> Result<Counting<R>, Fail> {
    let (listener, address) = listening(&rt, alloc)?;
    let _client = TcpStream::connect(&rt, str::from_utf8(address.as_slice())?)?;
    let (stream, _) = listener.accept()?;
    let tally = tallies.tally()?;
    let client = Client::from(stream).counted(tallies.begin(&rt, &tally)?);
    let permits = Arc::new(alloc, Permits::new(alloc, 1))?;
    let (source, sink) = ends_within(alloc, rt, rt, client, permits, LIMITS)?;
    Ok((
        source,
        sink,
        SteppedClock::new(MemClock::new(7), Some(tally)),
    ))
}

/// A request of this kind has this status behind so many steps.
fn replied<S: Source, K: Sink, C: Clock>(
    ends: (&mut S, &mut K, &mut C),
    kind: RequestKind,
    steps: u32,
    status: u16,
) {
    let (source, sink, clock) = ends;
    source.mark(ReadMark::Request(kind));
    for _ in 0..steps {
        let _ = clock.now();
    }
    sink.mark(WriteMark::Reply(status));
}

#[test]
fn what_connections_do_is_counted(rt: HostRuntime) -> Result<(), Fail> {
    let tallies = Tallies::new(rt.alloc())?;
    let (mut source, mut sink, mut clock) = counted(rt, rt.alloc(), &tallies)?;
    let rows = [
        // reads from memory: behind one step, and well
        (RequestKind::Range, 1, 200),
        (RequestKind::Txn, 1, 200),
        (RequestKind::Range, 2, 200),
        (RequestKind::Range, 1, 400),
        (RequestKind::Put, 1, 200),
        (RequestKind::Watch, 1, 200),
    ];
    for (kind, steps, status) in rows {
        replied((&mut source, &mut sink, &mut clock), kind, steps, status);
    }
    sink.mark(WriteMark::Events(2));
    sink.mark(WriteMark::Message);
    // bytes that are no request
    sink.mark(WriteMark::Reply(418));
    let counts = tallies.counts(&rt)?;
    assert!(rt; (counts.cached, counts.messages, counts.watches) == (2, 1, 1));
    assert_eq!(rt; counts.events, 2);
    assert!(rt; (counts.open, counts.opened) == (1, 1));
    let rows = [
        (RequestKind::Range, 200, 2),
        (RequestKind::Range, 400, 1),
        (RequestKind::Put, 200, 1),
        (RequestKind::Txn, 200, 1),
        (RequestKind::Watch, 200, 1),
        (RequestKind::Other, 0, 1),
    ];
    assert_eq!(rt; counts.replies.len(), rows.len());
    for (replies, row) in counts.replies.iter().zip(rows) {
        assert!(rt; (replies.kind, replies.status, replies.count) == row);
    }
    Ok(())
}

#[test]
fn what_a_connection_did_is_kept_once_it_ended(rt: HostRuntime) -> Result<(), Fail> {
    let tallies = Tallies::new(rt.alloc())?;
    for _ in 0..70 {
        let (mut source, mut sink, mut clock) = counted(rt, rt.alloc(), &tallies)?;
        let ends = (&mut source, &mut sink, &mut clock);
        replied(ends, RequestKind::Range, 1, 200);
        assert!(rt; tallies.counts(&rt)?.open == 1);
    }
    let counts = tallies.counts(&rt)?;
    assert!(rt; (counts.open, counts.opened, counts.cached) == (0, 70, 70));
    Ok(())
}
