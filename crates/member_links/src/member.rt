use crate::counts::Calls;
use crate::health::{Health, Pulse};
use crate::idle::{Idle, MOST};
use crate::upstream::{Unsent, Upstream};
use etcd_types::{Bytes, NoMemory};
use socket_limits::{Until, keep_lively};
use std::alloc::Global;
use std::io::ErrorKind;
use std::net::{Net, SocketAddr, TcpStream, ToSocketAddrs};
use std::rt::Clock as Times;
use std::sync::atomic::AtomicBool;
use std::sync::{Mutex, Wait};
use std::{io, str};

/// No name has more addresses.
const MOST_ADDRESSES: u32 = 32;

/// A member of a cluster.
#[derive(Drop)]
pub(crate) struct Member {
    /// From 1 on.
    pub(crate) number: u32,
    /// Its address as it was named, `host:port`.
    pub(crate) host: String,
    // the address to be tried first, where the name has any
    address: Mutex<Option<SocketAddr>>,
    /// Whether it answers.
    pub(crate) pulse: Pulse,
    /// Whether the last asking wasn't made, since memory or descriptors were wanting.
    pub(crate) is_unasked: AtomicBool,
    /// Whether it was told last that it doesn't answer.
    pub(crate) is_told: AtomicBool,
    /// Connections that calls left.
    pub(crate) idle: Idle,
    /// What is counted of the calls to it.
    pub(crate) calls: Calls,
}

/// The address of a host behind this one, or its first.
fn next_address<R: Net>(rt: &R, host: &str, address: Option<SocketAddr>) -> io::Result<SocketAddr> {
    let mut first = None;
    let mut is_next = false;
    for other in host.to_socket_addrs(rt)? {
        if is_next {
            return Ok(other);
        }
        first = first.or(Some(other));
        is_next = address == Some(other);
    }
    first.ok_or(io::Error::from(ErrorKind::NotFound))
}

impl Member {
    /// A member that wasn't called yet. Its name is looked up.
    pub(crate) fn new<R: Net>(
        rt: &R,
        alloc: Global,
        number: u32,
        host: &Bytes,
    ) -> Result<Member, NoMemory> {
        let host = str::from_utf8(host.as_slice()).unwrap_or("");
        let address = next_address(rt, host, None).ok();
        Ok(Member {
            number,
            host: String::from_str(alloc, host)?,
            address: Mutex::new(address),
            pulse: Pulse::new(),
            is_unasked: AtomicBool::new(false),
            is_told: AtomicBool::new(false),
            idle: Idle::new(alloc),
            calls: Calls::new(),
        })
    }

    // Connects to the address that is known. Where it takes no connection, the name is looked up again, and its other
    // addresses are tried in turn.
    fn connect<R: Net<Stream = TcpStream> + Times + Wait>(
        &self,
        rt: &R,
        until: Until,
    ) -> io::Result<TcpStream> {
        let known = *self.address.lock(rt);
        let first = match known {
            Some(address) => address,
            None => next_address(rt, self.host.as_str(), None)?,
        };
        let mut address = first;
        for _ in 0..MOST_ADDRESSES {
            let connected = match until.left(rt) {
                Ok(left) => TcpStream::connect_timeout(rt, &address, left),
                Err(late) => Err(late),
            };
            match connected {
                Ok(stream) => return Ok(stream),
                Err(error) => {
                    address = next_address(rt, self.host.as_str(), Some(address))?;
                    *self.address.lock(rt) = Some(address);
                    if address == first || until.left(rt).is_err() {
                        return Err(error);
                    }
                }
            }
        }
        Err(io::Error::from(ErrorKind::TimedOut))
    }

    // Connects, which is to take so many milliseconds at most. What is written is sent at once.
    fn reach<R: Net<Stream = TcpStream> + Times + Wait>(
        &self,
        rt: &R,
        connect: u64,
        until: Until,
    ) -> io::Result<Upstream> {
        let stream = self.connect(rt, until.or_after(rt, connect)?)?;
        let _ = stream.set_nodelay(true);
        keep_lively(&stream);
        Ok(Upstream::new(stream))
    }

    /// Sends a call over a new connection, which is to take so many milliseconds at most.
    pub(crate) fn send_anew<R: Net<Stream = TcpStream> + Times + Wait>(
        &self,
        rt: &R,
        call: &[u8],
        connect: u64,
        until: Until,
    ) -> Result<Upstream, Unsent> {
        let mut upstream = match self.reach(rt, connect, until) {
            Ok(upstream) => upstream,
            Err(error) => return Err(Unsent::Untouched(error)),
        };
        upstream.send(rt, call, until)?;
        Ok(upstream)
    }

    // Sends a call over a connection that an earlier one left, where one can still carry it.
    fn send_again<R: Times + Wait>(
        &self,
        rt: &R,
        call: &[u8],
        until: Until,
    ) -> Result<Option<Upstream>, Unsent> {
        for _ in 0..MOST {
            let left = match until.left(rt) {
                Ok(left) => left,
                Err(late) => return Err(Unsent::Untouched(late)),
            };
            let Some(mut upstream) = self.idle.take(rt) else {
                break;
            };
            match upstream.send_again(rt, call, left, until) {
                Ok(()) => return Ok(Some(upstream)),
                Err(Unsent::Untouched(_)) => {}
                Err(fault) => return Err(fault),
            }
        }
        Ok(None)
    }

    /// Sends a call: over a connection that an earlier one left, or else over a new one, which is to take so many milliseconds at
    /// most. It goes to another connection only as long as no byte of it was taken, since it may be done where its answer is lost.
    pub(crate) fn send<R: Net<Stream = TcpStream> + Times + Wait>(
        &self,
        rt: &R,
        call: &[u8],
        connect: u64,
        until: Until,
    ) -> Result<Upstream, Unsent> {
        match self.send_again(rt, call, until)? {
            Some(upstream) => Ok(upstream),
            None => self.send_anew(rt, call, connect, until),
        }
    }

    /// Whether its calls go to others.
    pub(crate) fn is_down(&self) -> bool {
        matches!(self.pulse.health(), Health::Down | Health::Barred)
    }
}
