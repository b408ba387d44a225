//! The two ends of a client's connection.

use super::{Watched, hears, listening};
use etcd_types::Bytes;
use outside::{Host, ReadMark, RequestKind, Sink, Source, WriteMark};
use socket_limits::{ConnectionLimits, Permits};
use sockets::{Client, SocketHost, SocketSink, SocketSource, ends_within, linger};
use std::alloc::Global;
use std::io::Write;
use std::net::{Net, TcpListener, TcpStream};
use std::rt::Clock as Times;
use std::sync::{Arc, Wait};
use std::test::Fail;
use std::thread::Threads;
use std::time::Duration;
use std::{str, thread};

/// Limits that no client of a test comes near.
pub(super) const LIMITS: ConnectionLimits = ConnectionLimits {
    first_byte: 20_000,
    head: 20_000,
    body: 20_000,
    write: 20_000,
    linger: 20_000,
};

/// A client, and the two ends of its connection at a server.
pub(super) type Connection<R> = (TcpStream, SocketSource<R>, SocketSink<R>);

pub(super) fn connected<R: Net<Listener = TcpListener, Stream = TcpStream> + Drop + Copy>(
    rt: R,
    alloc: Global,
    limits: ConnectionLimits,
    permits: &Arc<Permits, Global>,
) -> Result<Connection<R>, Fail> {
    let (listener, address) = listening(&rt, alloc)?;
    let client = TcpStream::connect(&rt, str::from_utf8(address.as_slice())?)?;
    let (stream, _) = listener.accept()?;
    let (source, sink) = ends_within(
        alloc,
        rt,
        rt,
        Client::from(stream),
        Arc::try_clone(permits)?,
        limits,
    )?;
    Ok((client, source, sink))
}

/// Whether the next bytes that come from there are these.
pub(super) fn gives<S: Source>(source: &mut S, bytes: &[u8]) -> bool {
    let mut room = [0u8; 8];
    match source.read(&mut room) {
        Ok(count) => room.get(..count) == Some(bytes),
        Err(_) => false,
    }
}

#[test]
fn an_accepted_connection_carries_bytes_both_ways(rt: HostRuntime) -> Result<(), Fail> {
    let permits = Arc::new(rt.alloc(), Permits::new(rt.alloc(), 1))?;
    let (mut client, mut source, mut sink) = connected(rt, rt.alloc(), LIMITS, &permits)?;
    client.write_all(b"ask")?;
    assert!(rt; source.check().is_ok() && gives(&mut source, b"ask"));
    assert!(rt; sink.write(b"reply") == Ok(5) && hears(&mut client, b"reply"));
    Ok(())
}

#[test]
fn a_client_that_went_away_is_seen(rt: HostRuntime) -> Result<(), Fail> {
    let permits = Arc::new(rt.alloc(), Permits::new(rt.alloc(), 1))?;
    let (mut client, mut source, sink) = connected(rt, rt.alloc(), LIMITS, &permits)?;
    assert!(rt; source.check().is_ok());
    client.write_all(b"a")?;
    drop(client);
    assert!(rt; source.check().is_ok() && gives(&mut source, b"a"));
    // it may have closed its writing half alone, and waits for its reply, but for a watch
    source.mark(ReadMark::Request(RequestKind::Put));
    assert!(rt; source.check().is_ok());
    source.mark(ReadMark::Request(RequestKind::Watch));
    assert!(rt; source.check().is_err() && gives(&mut source, b""));
    // the ends may go to another thread
    let handle = thread::spawn(&rt, move || -> usize { linger(source, sink) })?;
    assert_eq!(rt; handle.join(&rt), 0);
    Ok(())
}

/// Writes the bytes one by one, one each 50 ms, and closes the connection.
fn trickle<R: Times + Drop>(rt: R, client: TcpStream, bytes: &'static [u8]) {
    let mut client = client;
    for byte in bytes {
        thread::sleep(&rt, Duration::from_millis(50));
        if client.write(&[*byte]).is_err() {
            break;
        }
    }
}

/// Reads up to the end or a failure, and says how many bytes came and whether it failed. A head is so long.
fn read_on<S: Source>(source: &mut S, head: usize) -> (usize, bool) {
    let mut room = [0u8; 1];
    let mut came = 0usize;
    for _ in 0..1_000 {
        match source.read(&mut room) {
            Ok(0) => return (came, false),
            Ok(count) => came = came.saturating_add(count),
            Err(_) => return (came, true),
        }
        if came == head {
            source.mark(ReadMark::Head);
        }
    }
    (came, false)
}

/// Ten bytes that come one each 50 ms, of which some are the head: how many came, and whether a read failed.
fn came<
    R: Net<Listener = TcpListener, Stream = TcpStream>
        + Wait
        + Times
        + Eprint
        + Threads
        + Drop
        + Copy
        + Send
        + 'static,
>(
    rt: R,
    alloc: Global,
    bytes: &'static [u8],
    head: usize,
    limits: ConnectionLimits,
) -> Result<(usize, bool), Fail> {
    let permits = Arc::new(alloc, Permits::new(alloc, 1))?;
    let (client, mut source, _sink) = connected(rt, alloc, limits, &permits)?;
    let handle = thread::spawn(&rt, move || trickle(rt, client, bytes))?;
    let read = read_on(&mut source, head);
    handle.join(&rt);
    Ok(read)
}

/// Limits of so many milliseconds for each part of a request.
fn short(first_byte: u64, head: u64, body: u64) -> ConnectionLimits {
    ConnectionLimits {
        first_byte,
        head,
        body,
        ..LIMITS
    }
}

#[test]
fn a_client_has_a_limit_for_a_first_byte(rt: HostRuntime) -> Result<(), Fail> {
    let permits = Arc::new(rt.alloc(), Permits::new(rt.alloc(), 1))?;
    let limits = short(100, 20_000, 20_000);
    let (_client, mut source, _sink) = connected(rt, rt.alloc(), limits, &permits)?;
    assert_eq!(rt; read_on(&mut source, 1), (0, true));
    Ok(())
}

#[test]
fn a_client_has_a_limit_for_a_head_and_for_a_body(rt: HostRuntime) -> Result<(), Fail> {
    let bytes = b"0123456789".as_slice();
    // how long the head is, the limits, and whether all of it is read
    let rows = [
        (10, short(20_000, 250, 20_000), false),
        (1, short(20_000, 250, 20_000), true),
        (1, short(20_000, 20_000, 250), false),
        (9, short(20_000, 20_000, 250), true),
    ];
    for (head, limits, is_whole) in rows {
        let (count, failed) = came(rt, rt.alloc(), bytes, head, limits)?;
        assert_eq!(rt;
            (count == bytes.len(), failed),
            (is_whole, !is_whole),
            "{head}"
        );
    }
    Ok(())
}

#[test]
fn a_write_has_a_limit(rt: HostRuntime) -> Result<(), Fail> {
    let alloc: Global = rt.alloc();
    let limits = ConnectionLimits {
        write: 200,
        ..LIMITS
    };
    let permits = Arc::new(alloc, Permits::new(alloc, 1))?;
    let (_client, _source, mut sink) = connected(rt, alloc, limits, &permits)?;
    let reply = Vec::from_elem(alloc, b'x', 16_777_216)?;
    // the client reads nothing: a prefix is taken, and said to be
    let Ok(taken) = sink.write(reply.as_slice()) else {
        panic!(rt; "no prefix was taken");
    };
    assert!(rt; taken < reply.len());
    assert!(rt; sink.write(b"more").is_err());
    Ok(())
}

/// A large request.
const LARGE: usize = 65_537;

/// Whether a large request that came on a connection of its own, which is let go of, is worked on at once.
fn is_worked_on<
    R: Net<Listener = TcpListener, Stream = TcpStream> + Wait + Times + Eprint + Drop + Copy,
>(rt: R, alloc: Global, permits: &Arc<Permits, Global>) -> Result<bool, Fail> {
    let (client, mut source, _sink) = connected(rt, alloc, short(20_000, 20_000, 400), permits)?;
    if !is_read_from(alloc, &client, &mut source)? {
        return Ok(false);
    }
    let before = rt.monotonic()?;
    source.mark(ReadMark::Body);
    Ok(rt.monotonic()?.saturating_sub(before) < Duration::from_millis(300))
}

/// Whether a large request that the client sends is read whole.
pub(super) fn is_read_from<S: Source>(
    alloc: Global,
    client: &TcpStream,
    source: &mut S,
) -> Result<bool, Fail> {
    let mut client = client;
    let request = Vec::from_elem(alloc, b'x', LARGE)?;
    client.write_all(request.as_slice())?;
    let mut room = Vec::from_elem(alloc, 0u8, LARGE)?;
    let mut came = 0usize;
    for _ in 0..LARGE {
        match source.read(&mut room) {
            Ok(count) => came = came.saturating_add(count),
            Err(_) => return Ok(false),
        }
        if came >= LARGE {
            break;
        }
    }
    Ok(came == LARGE)
}

#[test]
fn a_large_request_has_a_permit_up_to_its_reply(rt: HostRuntime) -> Result<(), Fail> {
    let alloc: Global = rt.alloc();
    let permits = Arc::new(alloc, Permits::new(alloc, 1))?;
    let (client, mut source, mut sink) = connected(rt, alloc, LIMITS, &permits)?;
    assert!(rt; is_read_from(alloc, &client, &mut source)?);
    // one that still comes has none
    assert!(rt; is_worked_on(rt, alloc, &permits)?);
    source.mark(ReadMark::Body);
    sink.mark(WriteMark::Continue);
    assert!(rt; !is_worked_on(rt, alloc, &permits)?);
    sink.mark(WriteMark::Reply(200));
    assert!(rt; is_worked_on(rt, alloc, &permits)?);
    // a connection that ends gives its own back
    assert!(rt; is_worked_on(rt, alloc, &permits)?);
    Ok(())
}

#[test]
fn an_end_fails_where_the_clock_does(rt: HostRuntime) -> Result<(), Fail> {
    let alloc: Global = rt.alloc();
    let system = Watched::new(&rt);
    let permits = Arc::new(alloc, Permits::new(alloc, 1))?;
    let (mut client, mut source, mut sink) = connected(&system, alloc, LIMITS, &permits)?;
    for reading in 1..3 {
        client.write_all(b"a")?;
        system.refuse(reading);
        // one reading notes what came, and one begins the write
        let read = gives(&mut source, b"a");
        source.mark(ReadMark::Body);
        let written = sink.write(b"reply").is_ok();
        assert_eq!(rt; (read, written), (reading == 2, reading == 1), "{reading}");
    }
    Ok(())
}

#[test]
fn a_host_accepts_and_says_why_it_fails(rt: HostRuntime) -> Result<(), Fail> {
    let alloc: Global = rt.alloc();
    let system = Watched::new(&rt);
    let (there, taken) = listening(&rt, alloc)?;
    let mut host = SocketHost::new(&system);
    assert!(rt; host.accept().is_err());
    assert!(rt; host.listen(&Bytes::from_slice(alloc, b"nowhere")?).is_err());
    assert!(rt; host.listen(&taken).is_err());
    assert_eq!(rt; system.lines(), 3);
    drop(there);
    assert!(rt; host.listen(&taken).is_ok());
    let client = TcpStream::connect(&rt, str::from_utf8(taken.as_slice())?)?;
    assert!(rt; host.accept().is_ok());
    drop(client);
    Ok(())
}

#[test]
fn a_host_fails_behind_its_last_connection(rt: HostRuntime) -> Result<(), Fail> {
    let alloc: Global = rt.alloc();
    let (there, address) = listening(&rt, alloc)?;
    drop(there);
    let mut host = SocketHost::new(rt).of_most(1);
    assert!(rt; host.listen(&address).is_ok());
    let _first = TcpStream::connect(&rt, str::from_utf8(address.as_slice())?)?;
    let _second = TcpStream::connect(&rt, str::from_utf8(address.as_slice())?)?;
    assert!(rt; host.accept().is_ok());
    assert!(rt; host.accept().is_err());
    Ok(())
}
