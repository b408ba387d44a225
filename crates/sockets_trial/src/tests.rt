mod calls;
mod counted;
mod ends;
mod forgotten;
mod health;
mod kept;
mod room;
mod streams;

use etcd_types::{Bytes, List, NoMemory};
use member_links::{Members, SocketLink};
use outside::{AnswerEnd, CallKind, Link, Source};
use socket_limits::LinkLimits;
use std::alloc::Global;
use std::fmt::Display;
use std::io::{ErrorKind, Read, Write};
use std::net::{Net, SocketAddr, TcpListener, TcpStream};
use std::rt::Clock as Times;
use std::sync::atomic::AtomicU64;
use std::sync::atomic::Ordering::SeqCst;
use std::sync::{Arc, Wait};
use std::test::Fail;
use std::time::Duration;
use std::{io, thread};

/// A system with a clock that refuses a reading, or takes 400 ms for one, and that counts the lines on its standard error.
#[derive(Drop)]
struct Watched<R> {
    rt: R,
    /// The readings that are refused and that are slow, from 1 on, or 0 for none.
    refused: AtomicU64,
    slow: AtomicU64,
    readings: AtomicU64,
    lines: AtomicU64,
}

impl<R> Watched<R> {
    fn new(rt: R) -> Watched<R> {
        Watched {
            rt,
            refused: AtomicU64::new(0),
            slow: AtomicU64::new(0),
            readings: AtomicU64::new(0),
            lines: AtomicU64::new(0),
        }
    }

    /// From now on the reading of this number is refused.
    fn refuse(&self, reading: u64) {
        self.readings.store(0, SeqCst);
        self.refused.store(reading, SeqCst);
    }

    /// From now on the reading of this number is slow.
    fn slow(&self, reading: u64) {
        self.readings.store(0, SeqCst);
        self.slow.store(reading, SeqCst);
    }

    /// How many lines were written.
    fn lines(&self) -> u64 {
        self.lines.load(SeqCst)
    }
}

impl<R: Wait> Wait for Watched<R> {}

impl<R: Times> Times for Watched<R> {
    fn monotonic(&self) -> io::Result<Duration> {
        let reading = self.readings.fetch_add(1, SeqCst).wrapping_add(1);
        if reading == self.refused.load(SeqCst) {
            return Err(io::Error::from(ErrorKind::Unsupported));
        }
        if reading == self.slow.load(SeqCst) {
            self.rt.sleep(Duration::from_millis(400));
        }
        self.rt.monotonic()
    }

    fn since_1970(&self) -> io::Result<Duration> {
        self.rt.since_1970()
    }

    fn sleep(&self, duration: Duration) {
        self.rt.sleep(duration)
    }
}

impl<R> Eprint for Watched<R> {
    fn eprint<D: Display + Drop>(&self, _value: D) -> io::Result<()> {
        Ok(())
    }

    fn eprintln<D: Display + Drop>(&self, _value: D) -> io::Result<()> {
        self.lines.fetch_add(1, SeqCst);
        Ok(())
    }
}

impl<R: Net<Listener = TcpListener, Stream = TcpStream>> Net for Watched<R> {
    type Stream = TcpStream;

    type Listener = TcpListener;

    fn bind(&self, addr: SocketAddr) -> io::Result<TcpListener> {
        self.rt.bind(addr)
    }

    fn connect(&self, addr: SocketAddr) -> io::Result<TcpStream> {
        self.rt.connect(addr)
    }

    fn connect_timeout(&self, addr: SocketAddr, timeout: Duration) -> io::Result<TcpStream> {
        self.rt.connect_timeout(addr, timeout)
    }
}

/// Limits that no member of a test comes near, but for a stream's silence.
const LIMITS: LinkLimits = LinkLimits {
    connect: 20_000,
    read: 20_000,
    scan: 20_000,
    write: 20_000,
    silence: 300,
    ask: 20_000,
    cut: 600_000,
};

/// A listener on a free port, and its address.
fn listening<R: Net<Listener = TcpListener, Stream = TcpStream>>(
    rt: &R,
    alloc: Global,
) -> Result<(TcpListener, Bytes), Fail> {
    let listener: TcpListener = TcpListener::bind(rt, "127.0.0.1:0")?;
    let address = listener.local_addr()?;
    let address = format!(in alloc; "{address}")?;
    Ok((listener, Bytes::from_slice(alloc, address.as_bytes())?))
}

/// The members at these addresses.
fn members_at<R: Net>(
    rt: &R,
    alloc: Global,
    addresses: &[&Bytes],
) -> Result<Arc<Members, Global>, NoMemory> {
    let mut hosts = List::new(alloc);
    for address in addresses {
        hosts.push(address.copy(alloc)?)?;
    }
    Ok(Arc::new(alloc, Members::new(rt, alloc, &hosts)?)?)
}

/// A link to the members at these addresses.
fn linked<R: Net + Drop>(
    rt: R,
    alloc: Global,
    addresses: &[&Bytes],
    limits: LinkLimits,
) -> Result<SocketLink<R>, NoMemory> {
    let members = members_at(&rt, alloc, addresses)?;
    Ok(SocketLink::new(rt, members, limits))
}

/// What a member of a test does on a connection.
#[derive(Clone, Copy)]
enum Act {
    /// Reads once, and what comes must be this.
    Hear(&'static [u8]),
    Say(&'static [u8]),
    /// Sees that the connection was closed.
    Gone,
    /// Waits for so many milliseconds, so that what was said before comes apart from what is said next.
    Rest(u64),
}

/// Does one act on a connection, and says whether it went so.
fn does<R: Times>(rt: &R, stream: &mut TcpStream, act: Act) -> bool {
    match act {
        Act::Hear(call) => hears(stream, call),
        Act::Say(bytes) => stream.write(bytes).is_ok(),
        Act::Gone => hears(stream, b""),
        Act::Rest(millis) => {
            thread::sleep(rt, Duration::from_millis(millis));
            true
        }
    }
}

/// Reads once, and says whether these bytes came. None come from a connection that failed.
fn hears(stream: &mut TcpStream, call: &[u8]) -> bool {
    let mut room = [0u8; 256];
    match stream.read(&mut room) {
        Ok(count) => room.get(..count) == Some(call),
        Err(_) => call.is_empty(),
    }
}

/// Does these acts on a connection, and says how many it did before one failed.
fn does_all<R: Times>(rt: &R, stream: TcpStream, acts: &[Act]) -> usize {
    let mut stream = stream;
    let mut done = 0usize;
    for act in acts {
        if !does(rt, &mut stream, *act) {
            break;
        }
        done = done.saturating_add(1);
    }
    done
}

/// The acts of a member, one lot for each connection, which it closes behind its lot.
#[derive(Clone, Copy)]
struct Story {
    lots: &'static [&'static [Act]],
}

/// Plays a member, and says how many acts it did before one failed.
fn play<R: Times>(rt: &R, listener: &TcpListener, story: Story) -> usize {
    let mut done = 0usize;
    for lot in story.lots {
        let Ok((stream, _)) = listener.accept() else {
            break;
        };
        let count = does_all(rt, stream, lot);
        done = done.saturating_add(count);
        if count < lot.len() {
            break;
        }
    }
    done
}

/// What a call comes to.
#[derive(Clone, Copy, Debug, PartialEq, Eq)]
enum Heard {
    /// The wanted bytes came.
    Wanted,
    /// Other bytes came, or too few.
    Other,
    /// A read of the answer failed.
    Failed,
    /// The call wasn't sent.
    Unsent,
}

/// Reads so much as is wanted and says what came.
fn hear<S: Source>(source: &mut S, wanted: &[u8]) -> Heard {
    let mut room = [0u8; 64];
    let mut came = 0usize;
    for _ in 0..wanted.len() {
        if came >= wanted.len() {
            break;
        }
        let Some(rest) = room.get_mut(came..wanted.len()) else {
            return Heard::Other;
        };
        match source.read(rest) {
            Ok(0) => return Heard::Other,
            Ok(count) => came = came.saturating_add(count),
            Err(_) => return Heard::Failed,
        }
    }
    if room.get(..came) == Some(wanted) {
        Heard::Wanted
    } else {
        Heard::Other
    }
}

/// Makes a call to a member, of which just the wanted answer is read, and gives that back as it is said; another answer is broken.
fn call<R: Net<Stream = TcpStream> + Times + Wait + Eprint + Drop + Copy>(
    link: &mut SocketLink<R>,
    member: u32,
    kind: CallKind,
    wanted: &[u8],
    how: AnswerEnd,
) -> Heard {
    let Ok(mut answer) = link.begin(member, kind, CALL) else {
        return Heard::Unsent;
    };
    let heard = hear(&mut answer, wanted);
    let how = if heard == Heard::Wanted {
        how
    } else {
        AnswerEnd::Broken
    };
    link.end(answer, how);
    heard
}

/// The bytes of a call, and of answers. The sockets don't look at them.
const CALL: &[u8] = b"call";

const ONE: &[u8] = b"one";

const TWO: &[u8] = b"two";
