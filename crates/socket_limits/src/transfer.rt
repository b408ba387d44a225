//! Bytes over a socket up to a moment.
ghost use Rattle.std.specs.Prelude.{◌≡◌, ◌≤◌, ◌*◌, ◌/◌, IfOk, IsTrue};
ghost use Rattle.std.specs.Duration.{as_nanos};
ghost use Rattle.std.specs.Io.{ReadsAtMost};
ghost use Rattle.std.specs.IoError.{error_kind};
ghost use Rattle.socket_limits.specs.Transfers as spec;

use crate::times::{TRIES, Until};
use std::io;
use std::io::{ErrorKind, Read};
use std::net::TcpStream;
use std::rt::Clock as Times;
use std::time::Duration;

/// Whether a socket that lets a wait last for so long at most is left as it is, where so long is left: it is if no wait lasts
/// too long and two are enough.
pub fn is_near(limit: Duration, left: Duration) -> bool
    ensures within { IsTrue result → as_nanos limit ≤ as_nanos left }
    ensures twice { IsTrue result → as_nanos left / 1_000_000 ≤ as_nanos limit / 1_000_000 * 2 }
    ensures near { as_nanos limit ≤ as_nanos left → as_nanos left / 1_000_000 ≤ as_nanos limit / 1_000_000 * 2 → IsTrue result }
{
    limit.as_nanos() <= left.as_nanos() && left.as_millis() <= limit.as_millis().saturating_mul(2)
}

/// Whether a transfer is to be tried again: it was interrupted, or the socket's limit is over, which may be shorter than what
/// is left.
pub fn is_passing(error: &io::Error) -> bool
    ensures { result ≡ spec.is_passing (error_kind error.now) }
{
    matches!(error.kind(), ErrorKind::Interrupted | ErrorKind::WouldBlock)
}

/// Reads the next bytes of a connection whose socket has this limit for a read, and says how many. None are the end.
pub fn receive<R: Times>(
    rt: &R,
    stream: &TcpStream,
    limit: &mut Duration,
    room: &mut [u8],
    until: Until,
) -> io::Result<usize>
    ensures { ReadsAtMost result room.new }
{
    for _ in 0..TRIES {
        let left = until.left(rt)?;
        if !is_near(*limit, left) {
            stream.set_read_timeout(Some(left))?;
            *limit = left;
        }
        let mut socket = stream;
        match socket.read(room) {
            Ok(count) => return Ok(count),
            Err(error) if is_passing(&error) => {}
            Err(error) => return Err(error),
        }
    }
    Err(io::Error::from(ErrorKind::Interrupted))
}

/// Looks whether a byte has come, and waits for none. It is `WouldBlock` where none has, and 0 at the end.
pub fn glance(stream: &TcpStream) -> io::Result<usize>
    ensures { IfOk result (λ count. count ≤ 1) }
{
    stream.set_nonblocking(true)?;
    let mut room = [0u8; 1];
    let looked = stream.peek(&mut room);
    stream.set_nonblocking(false)?;
    looked
}
