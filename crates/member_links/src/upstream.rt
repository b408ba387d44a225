ghost use Rattle.std.specs.Prelude.{◌≤◌, ℕ, List, Option, length, take, IfOk};
ghost use Rattle.std.specs.Io.{ReadsAtMost, WritesAtMost};
ghost use Rattle.std.specs.Io.KnownBytes.{Appends, WriteAppends};
ghost use Rattle.member_links.specs.Sent.{IsSent};

use socket_limits::{TRIES, Until, is_near, is_passing, receive};
use std::io;
use std::io::{ErrorKind, Read, Write};
use std::net::TcpStream;
use std::rt::Clock as Times;
use std::time::Duration;

/// Why a call wasn't sent whole.
#[derive(Debug, Drop)]
pub(crate) enum Unsent {
    /// The system took no byte of it, so it may be sent over another connection.
    Untouched(io::Error),
    /// The system took a prefix of it, which the member may have.
    Prefix(io::Error),
}

impl Unsent {
    pub(crate) fn into_error(self) -> io::Error {
        match self {
            Unsent::Untouched(error) | Unsent::Prefix(error) => error,
        }
    }

    /// The same of a call of which an earlier write took a prefix.
    fn after_prefix(self) -> Unsent {
        Unsent::Prefix(self.into_error())
    }
}

/// Why bytes weren't sent whole of which so many were taken.
fn cut_off(bytes: &[u8], done: usize, error: io::Error) -> Unsent
    requires { done ≤ length bytes.now }
    ensures { (old new : Option (List ℕ)) → Appends old new (take done bytes.now) → IsSent old new bytes.now (Err result) }
{
    if done > 0 {
        Unsent::Prefix(error)
    } else {
        Unsent::Untouched(error)
    }
}

/// Writes once, and says how many bytes were taken: none where it is to be tried again.
fn write_once<W: Write>(writer: &mut W, piece: &[u8]) -> io::Result<usize>
    ensures bound { WritesAtMost result piece.now }
    ensures bytes { WriteAppends (W.contents writer.old) (W.contents writer.new) result piece.now }
{
    match writer.write(piece) {
        Ok(0) => Err(io::Error::from(ErrorKind::WriteZero)),
        Ok(count) => Ok(count),
        Err(error) if is_passing(&error) => Ok(0),
        Err(error) => Err(error),
    }
}

/// Writes all the bytes, each once, by as many writes as it takes.
pub(crate) fn send_all<W: Write>(writer: &mut W, bytes: &[u8]) -> Result<(), Unsent>
    ensures { IsSent (W.contents writer.old) (W.contents writer.new) bytes.now result }
{
    let mut done = 0;
    for _ in 0..TRIES {
        if done == bytes.len() {
            return Ok(());
        }
        match write_once(writer, &bytes[done..]) {
            Ok(count) => done += count,
            Err(error) => return Err(cut_off(bytes, done, error)),
        }
    }
    Err(cut_off(bytes, done, io::Error::from(ErrorKind::Interrupted)))
}

/// A connection to a member.
#[derive(Drop)]
pub(crate) struct Upstream {
    stream: TcpStream,
    // how long the socket lets a write last, and a read; zero where that was not told
    write_limit: Duration,
    read_limit: Duration,
}

/// A connection whose writes end at that moment at the latest.
#[derive(Drop)]
struct Paced<'a, R> {
    rt: &'a R,
    upstream: &'a mut Upstream,
    until: Until,
}

impl<R: Times> Write for Paced<'_, R> {
    fn write(&mut self, piece: &[u8]) -> io::Result<usize> {
        let left = self.until.left(self.rt)?;
        self.upstream.limit_write(left)?;
        let mut socket = &self.upstream.stream;
        socket.write(piece)
    }

    fn flush(&mut self) -> io::Result<()> {
        Ok(())
    }
}

/// Writes a prefix where the other end neither closed the connection nor sent anything, and says how long it is. Neither the look
/// nor the write waits.
fn write_if_quiet(stream: &TcpStream, bytes: &[u8]) -> io::Result<usize>
    ensures { WritesAtMost result bytes.now }
{
    let mut room = [0u8; 1];
    match stream.peek(&mut room) {
        Ok(_) => return Err(io::Error::from(ErrorKind::InvalidData)),
        Err(error) if error.kind() == ErrorKind::WouldBlock => {}
        Err(error) => return Err(error),
    }
    let mut socket = stream;
    socket.write(bytes)
}

impl Upstream {
    /// A connection whose socket was told no limit.
    pub(crate) fn new(stream: TcpStream) -> Upstream {
        Upstream {
            stream,
            write_limit: Duration::ZERO,
            read_limit: Duration::ZERO,
        }
    }

    // Lets a write last for so long at most. The socket is told that only where its own limit doesn't serve.
    fn limit_write(&mut self, left: Duration) -> io::Result<()> {
        if !is_near(self.write_limit, left) {
            self.stream.set_write_timeout(Some(left))?;
            self.write_limit = left;
        }
        Ok(())
    }

    /// The connection's socket.
    pub(crate) fn into_socket(self) -> TcpStream {
        self.stream
    }

    /// Sends all the bytes over a new connection.
    pub(crate) fn send<R: Times>(
        &mut self,
        rt: &R,
        bytes: &[u8],
        until: Until,
    ) -> Result<(), Unsent> {
        let mut paced = Paced {
            rt,
            upstream: self,
            until,
        };
        send_all(&mut paced, bytes)
    }

    // Sends a prefix of the bytes where the connection is quiet.
    fn send_if_quiet(&mut self, bytes: &[u8]) -> Result<usize, Unsent>
        ensures { IfOk result (λ count. count ≤ length bytes.now) }
    {
        if let Err(error) = self.stream.set_nonblocking(true) {
            return Err(Unsent::Untouched(error));
        }
        let sent = write_if_quiet(&self.stream, bytes);
        match (sent, self.stream.set_nonblocking(false)) {
            (Ok(0), _) => Err(Unsent::Untouched(io::Error::from(ErrorKind::WriteZero))),
            (Ok(count), Ok(())) => Ok(count),
            (Ok(_), Err(error)) => Err(Unsent::Prefix(error)),
            (Err(error), _) => Err(Unsent::Untouched(error)),
        }
    }

    /// Sends all the bytes over a connection that an earlier call left, where its other end neither closed it nor sent anything
    /// since: what nobody asked for would be taken for the answer. That is looked for once nothing else is left to be done before
    /// the first write, and that write doesn't wait.
    pub(crate) fn send_again<R: Times>(
        &mut self,
        rt: &R,
        bytes: &[u8],
        left: Duration,
        until: Until,
    ) -> Result<(), Unsent> {
        if let Err(error) = self.limit_write(left) {
            return Err(Unsent::Untouched(error));
        }
        let taken = self.send_if_quiet(bytes)?;
        match self.send(rt, &bytes[taken..], until) {
            Ok(()) => Ok(()),
            Err(fault) => Err(fault.after_prefix()),
        }
    }

    /// Reads the next bytes, and says how many. None are the end.
    pub(crate) fn receive<R: Times>(
        &mut self,
        rt: &R,
        room: &mut [u8],
        until: Until,
    ) -> io::Result<usize>
        ensures { ReadsAtMost result room.new }
    {
        receive(rt, &self.stream, &mut self.read_limit, room, until)
    }
}
