//! Where there is no room: for a further connection, and for what comes of a large request.

use super::ends::{LIMITS, connected, gives, is_read_from};
use super::{hears, listening};
use etcd_types::Bytes;
use outside::{Host, Sink, WriteMark};
use socket_limits::Permits;
use sockets::{Budget, Door, SocketHost};
use std::alloc::Global;
use std::net::TcpStream;
use std::sync::Arc;
use std::test::Fail;
use std::time::Duration;
use std::{str, thread};

#[test]
fn a_connection_too_many_is_told_so(rt: HostRuntime) -> Result<(), Fail> {
    let alloc: Global = rt.alloc();
    let (there, address) = listening(&rt, alloc)?;
    drop(there);
    let refusal = Bytes::from_slice(alloc, b"no room")?;
    let door = Door::new(alloc, Arc::new(alloc, Budget::new(1))?, refusal);
    let mut host = SocketHost::new(rt).through(door);
    assert!(rt; host.listen(&address).is_ok());
    let text = str::from_utf8(address.as_slice())?;
    let _first = TcpStream::connect(&rt, text)?;
    let accepted = host.accept();
    assert!(rt; matches!(accepted, Ok(Some(_))));
    let mut second = TcpStream::connect(&rt, text)?;
    // it refuses the second one, and then waits for one for which there is room
    let waiting = thread::spawn(&rt, move || -> bool {
        matches!(host.accept(), Ok(Some(_)))
    })?;
    assert!(rt; hears(&mut second, b"no room") && hears(&mut second, b""));
    drop(accepted);
    let _third = TcpStream::connect(&rt, text)?;
    assert!(rt; waiting.join(&rt));
    Ok(())
}

#[test]
fn the_slowest_upload_is_ended_where_there_is_no_room(rt: HostRuntime) -> Result<(), Fail> {
    let alloc: Global = rt.alloc();
    let permits = Arc::new(alloc, Permits::of_bytes(alloc, 1, 100_000))?;
    let (client, mut source, mut sink) = connected(rt, alloc, LIMITS, &permits)?;
    let (other_client, mut other, _other_sink) = connected(rt, alloc, LIMITS, &permits)?;
    assert!(rt; is_read_from(alloc, &client, &mut source)?);
    // so that the first one is the slower
    thread::sleep(&rt, Duration::from_millis(50));
    let first = thread::spawn(&rt, move || -> bool {
        // its connection was ended though its client is there
        let ended = gives(&mut source, b"");
        sink.mark(WriteMark::Reply(400));
        ended
    })?;
    assert!(rt; is_read_from(alloc, &other_client, &mut other)?);
    assert!(rt; first.join(&rt));
    Ok(())
}
