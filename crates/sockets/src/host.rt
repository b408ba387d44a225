ghost use Rattle.std.specs.Prelude.{◌≡◌, ◌≤◌, None};
ghost use Rattle.outside.specs.Faults.{Rose};

use crate::door::{Client, Door};
use crate::halt::Halt;
use etcd_types::Bytes;
use outside::{Failed, Host};
use socket_limits::{keep_lively, line_time};
use state_file::Sessions;
use std::alloc::Global;
use std::io::ErrorKind;
use std::marker::Model;
use std::net::{Ipv4Addr, Ipv6Addr, Net, TcpListener, TcpStream};
use std::rt::Clock as Times;
use std::sync::{Arc, Wait};
use std::time::Duration;
use std::{io, str, thread};

/// How long is paused after an accept that failed in passing, in milliseconds.
const PAUSE_MS: u64 = 10;

/// So many connections are accepted at most: each has tickets of its own, and then none are left.
const MOST: u64 = 1 << 31;

/// What accepts connections on an address of the system. Where it can't listen, or accepts no more, it says why in one line on the
/// standard error.
#[derive(Drop)]
pub struct SocketHost<R: Drop> {
    rt: R,
    pub(crate) listener: Option<TcpListener>,
    // how many more connections may be accepted
    left: u64,
    // by what it is told to accept no more, where anybody may tell it so
    halt: Option<Arc<Halt, Global>>,
    // what lets connections in, where there may be so many alone
    door: Option<Door>,
    // the sessions of the process, where it is to keep any
    sessions: Option<Arc<Sessions, Global>>,
    pub(crate) faults: u64,
}

impl<R: Drop> Model for SocketHost<R> {
    ghost use Rattle.outside.specs.Faults.{Counted};

    ghost Value = { Counted R };

    ghost view = { λ h. record { inner = h.rt; faults = h.faults } };
}

impl<R: Drop> SocketHost<R> {
    /// A host that doesn't listen yet, with no failure.
    pub fn new(rt: R) -> SocketHost<R>
        ensures { result ≡ record { inner = rt; faults = 0 } }
    {
        SocketHost {
            rt,
            listener: None,
            left: MOST,
            halt: None,
            door: None,
            sessions: None,
            faults: 0,
        }
    }

    /// The same host, which accepts so many connections and then fails.
    pub fn of_most(self, most: u64) -> SocketHost<R>
        ensures { result ≡ self }
    {
        SocketHost { left: most, ..self }
    }

    /// The same host, which listens only where these are kept as was asked for.
    pub fn keeping(self, sessions: Arc<Sessions, Global>) -> SocketHost<R>
        ensures { result ≡ self }
    {
        SocketHost {
            sessions: Some(sessions),
            ..self
        }
    }

    /// The same host, which accepts no more once this is called.
    pub fn until(self, halt: Arc<Halt, Global>) -> SocketHost<R>
        ensures { result ≡ self }
    {
        SocketHost {
            halt: Some(halt),
            ..self
        }
    }
}

impl<R: Drop> SocketHost<R> {
    /// The same host, which lets in as many connections as there is room for.
    pub fn through(self, door: Door) -> SocketHost<R>
        ensures { result ≡ self }
    {
        SocketHost {
            door: Some(door),
            ..self
        }
    }
}

/// Whether an accept may succeed later though it failed so: the client went away, or too much is open at the moment.
fn passes(error: &io::Error) -> bool {
    // in the order of accept(2): EINTR, EAGAIN, ENOMEM, ENFILE, EMFILE, ENONET, EPROTO, ENOPROTOOPT, EOPNOTSUPP, ENETDOWN,
    // ENETUNREACH, ECONNABORTED, ENOBUFS, EHOSTDOWN, EHOSTUNREACH
    matches!(
        error.raw_os_error(),
        Some(4 | 11 | 12 | 23 | 24 | 64 | 71 | 92 | 95 | 100 | 101 | 103 | 105 | 112 | 113)
    )
}

/// Listens on an address. At a port alone it does at all addresses of the machine: at those of IPv6, among which the system counts those of
/// IPv4, or at these where it has no others.
fn listener_at<R: Net<Listener = TcpListener, Stream = TcpStream>>(
    rt: &R,
    address: &str,
) -> io::Result<TcpListener> {
    let Some(port) = address.strip_prefix(':') else {
        return TcpListener::bind(rt, address);
    };
    let Ok(port) = port.parse::<u16>() else {
        return Err(io::Error::from(ErrorKind::InvalidInput));
    };
    match TcpListener::bind(rt, (Ipv6Addr::UNSPECIFIED, port)) {
        Ok(listener) => Ok(listener),
        Err(error) if error.kind() == ErrorKind::AddrInUse => Err(error),
        Err(_) => TcpListener::bind(rt, (Ipv4Addr::UNSPECIFIED, port)),
    }
}

/// The next connection. It waits while accepts fail in passing.
fn accepted<R: Wait + Times>(rt: &R, listener: &TcpListener) -> io::Result<TcpStream> {
    for _ in rt.forever() {
        match listener.accept() {
            Ok((stream, _)) => return Ok(stream),
            Err(error) if passes(&error) => thread::sleep(rt, Duration::from_millis(PAUSE_MS)),
            Err(error) => return Err(error),
        }
    }
    unreachable!()
}

impl<R: Net<Listener = TcpListener, Stream = TcpStream> + Wait + Times + Eprint + Drop> SocketHost<
    R,
> {
    // It fails where no more connections are to be accepted.
    fn go_on(&self) -> io::Result<()> {
        match &self.halt {
            Some(halt) if halt.is_due() => {
                Err(io::Error::new(ErrorKind::Other, "the cluster has another history"))
            }
            _ => Ok(()),
        }
    }

    // Whether sessions are kept as was asked for.
    fn check(&self) -> io::Result<()> {
        match &self.sessions {
            Some(sessions) => sessions.check(&self.rt),
            None => Ok(()),
        }
    }

    // Whether it is told to stop.
    fn stops(&self) -> bool {
        match &self.halt {
            Some(halt) => halt.stops(),
            None => false,
        }
    }

    // Counts a further connection, where one may come.
    fn count(&mut self) -> io::Result<()>
        ensures { self.new.faults ≡ self.old.faults }
    {
        match self.left.checked_sub(1) {
            Some(left) => {
                self.left = left;
                Ok(())
            }
            None => Err(io::Error::new(ErrorKind::Other, "each connection has had its tickets")),
        }
    }

    // The next connection, which sends what is written at once, and ends where its client vanished.
    fn accepted(&self) -> io::Result<TcpStream> {
        let Some(listener) = &self.listener else {
            return Err(io::Error::from(ErrorKind::NotConnected));
        };
        self.go_on()?;
        let stream = accepted(&self.rt, listener)?;
        self.go_on()?;
        let _ = stream.set_nodelay(true);
        keep_lively(&stream);
        Ok(stream)
    }

    // The same connection as a client, where there is room for it.
    fn admitted(&self, stream: TcpStream) -> Option<Client> {
        match &self.door {
            Some(door) => door.admit(&self.rt, stream),
            None => Some(Client::from(stream)),
        }
    }

    // The next client for which there is room, or none where it is told to stop. Who connects then is refused.
    fn client(&self) -> io::Result<Option<Client>> {
        for _ in self.rt.forever() {
            let stream = self.accepted()?;
            if self.stops() {
                return Ok(None);
            }
            if let Some(client) = self.admitted(stream) {
                return Ok(Some(client));
            }
        }
        unreachable!()
    }

    // Says how many connections there may be.
    fn tell_room(&self) {
        if let Some(door) = &self.door {
            let when = line_time(&self.rt);
            let most = door.most();
            let _ = eprintln!(self.rt;
                "{when:.3} INFO etcd_proxy: at most {most} connections are served at once"
            );
        }
    }

    // The next client, where a further one may come, or none where it is told to stop.
    fn next(&mut self) -> io::Result<Option<Client>>
        ensures { self.new.faults ≡ self.old.faults }
    {
        if !self.stops() {
            self.count()?;
            if let Some(client) = self.client()? {
                return Ok(Some(client));
            }
        }
        self.listener = None;
        Ok(None)
    }

    // Counts a failure, and says why.
    fn fail(&mut self, what: &str, whom: &str, error: &io::Error) -> Failed
        ensures rose { Rose self.old.faults self.new.faults }
        ensures kept { self.old.faults ≤ self.new.faults }
    {
        let when = line_time(&self.rt);
        let _ = eprintln!(self.rt; "{when:.3} ERROR etcd_proxy: {what}{whom}: {error}");
        self.faults = self.faults.saturating_add(1);
        Failed
    }

    // Listens on an address.
    fn hear(&mut self, address: &str) -> io::Result<()>
        ensures { self.new.faults ≡ self.old.faults }
    {
        let listener = listener_at(&self.rt, address)?;
        if let Some(halt) = &self.halt {
            halt.listens(&self.rt, listener.local_addr().ok());
        }
        self.listener = Some(listener);
        self.tell_room();
        Ok(())
    }
}

impl<R: Net<Listener = TcpListener, Stream = TcpStream> + Wait + Times + Eprint + Drop> Host
    for SocketHost<R> {
    type Conn = Client;

    ghost made = { λ h. None };

    ghost faults = { λ h. h.faults };

    fn listen(&mut self, address: &Bytes) -> Result<(), Failed> {
        if let Err(error) = self.check() {
            return Err(self.fail("can't keep sessions in the state file", "", &error));
        }
        let address = str::from_utf8(address.as_slice()).unwrap_or("");
        match self.hear(address) {
            Ok(()) => Ok(()),
            Err(error) => Err(self.fail("can't listen on ", address, &error)),
        }
    }

    fn accept(&mut self) -> Result<Option<Client>, Failed> {
        match self.next() {
            Ok(came) => Ok(came),
            Err(error) => Err(self.fail("no more connections are accepted", "", &error)),
        }
    }
}
