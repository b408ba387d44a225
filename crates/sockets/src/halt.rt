use std::alloc::Global;
use std::net::{Net, SocketAddr, TcpStream};
use std::rt::Clock as Times;
use std::sync::atomic::Ordering::SeqCst;
use std::sync::atomic::{AtomicBool, AtomicU64};
use std::sync::{Arc, Mutex, Wait};
use std::thread;
use std::time::Duration;

/// How long the connection that wakes a host may take, in milliseconds.
const WAKING_MS: u64 = 1_000;

/// How often it is looked whether requests are still served, in milliseconds.
const LOOK_MS: u64 = 10;

/// By what a process is told that it is to serve nobody any more: its host accepts no further connection, since something is wrong, or
/// since it is to stop.
#[derive(Drop)]
pub struct Halt {
    is_due: AtomicBool,
    stops: AtomicBool,
    // how many requests are being served
    served: AtomicU64,
    // where the host listens, once it does
    address: Mutex<Option<SocketAddr>>,
}

/// That a request is being served.
pub(crate) struct Served {
    halt: Arc<Halt, Global>,
}

impl Served {
    /// One more, or nothing where memory is wanting.
    pub(crate) fn count(halt: &Arc<Halt, Global>) -> Option<Served> {
        let halt = Arc::try_clone(halt).ok()?;
        halt.served.fetch_add(1, SeqCst);
        Some(Served { halt })
    }
}

// One that has its reply is served no more.
impl Drop for Served {
    fn drop(self) {
        let Served { halt } = self;
        halt.served.fetch_sub(1, SeqCst);
    }
}

impl Halt {
    /// One that wasn't called yet.
    pub fn new() -> Halt {
        Halt {
            is_due: AtomicBool::new(false),
            stops: AtomicBool::new(false),
            served: AtomicU64::new(0),
            address: Mutex::new(None),
        }
    }

    /// Whether it was called since something is wrong.
    pub fn is_due(&self) -> bool {
        self.is_due.load(SeqCst)
    }

    /// Whether it was called for a stop.
    pub fn stops(&self) -> bool {
        self.stops.load(SeqCst)
    }

    /// The host listens there.
    pub(crate) fn listens<R: Wait>(&self, rt: &R, address: Option<SocketAddr>) {
        *self.address.lock(rt) = address;
    }

    /// Calls it, since something is wrong. A host that waits for a connection is woken by one, which is why this may be tried again.
    pub fn call<R: Net<Stream = TcpStream> + Wait>(&self, rt: &R) {
        self.is_due.store(true, SeqCst);
        self.wake(rt);
    }

    /// Calls it for a stop: no further request is read either.
    pub fn stop<R: Net<Stream = TcpStream> + Wait>(&self, rt: &R) {
        self.stops.store(true, SeqCst);
        self.wake(rt);
    }

    // Wakes a host that waits for a connection, by one.
    fn wake<R: Net<Stream = TcpStream> + Wait>(&self, rt: &R) {
        let address = *self.address.lock(rt);
        if let Some(address) = address {
            let _ = TcpStream::connect_timeout(rt, &address, Duration::from_millis(WAKING_MS));
        }
    }

    /// Waits until no request is being served, so many milliseconds at most.
    pub fn finish<R: Times>(&self, rt: &R, millis: u64) {
        for _ in 0..millis / LOOK_MS {
            if self.served.load(SeqCst) == 0 {
                return;
            }
            thread::sleep(rt, Duration::from_millis(LOOK_MS));
        }
    }
}
