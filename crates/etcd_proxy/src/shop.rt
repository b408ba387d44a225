// What the connections to a store meet of the system: their sockets, and its clock.

use etcd_types::NoMemory;
use outside::SystemClock;
use shop_threads::ShopEnds;
use socket_limits::Permits;
use sockets::{Client, Heads, SocketSink, SocketSource, ends_of, linger};
use std::alloc::Global;
use std::net::{Net, TcpStream};
use std::rt::Clock as Times;
use std::sync::{Arc, Wait};

/// So many connections to a store are open at once at most.
pub(crate) const CONNECTIONS: u64 = 4_096;

/// So many large requests that came are worked on at once.
const LARGE: u64 = 8;

/// What connections to a store meet of the system. All have the time of one clock.
#[derive(Drop)]
pub(crate) struct ShopSystem<R: Drop> {
    rt: R,
    alloc: Global,
    permits: Arc<Permits, Global>,
    heads: Arc<Heads, Global>,
    clock: SystemClock<R>,
}

impl<R: Times + Wait + Drop + Copy> ShopSystem<R> {
    /// What the connections of a process meet. Nobody has them stop before their clients do.
    pub(crate) fn new(rt: R, alloc: Global) -> Result<ShopSystem<R>, NoMemory> {
        Ok(ShopSystem {
            rt,
            alloc,
            permits: Arc::new(alloc, Permits::new(alloc, LARGE))?,
            heads: Arc::new(alloc, Heads::new())?,
            clock: SystemClock::new(alloc, rt)?,
        })
    }
}

impl<R: Net<Stream = TcpStream> + Times + Wait + Eprint + Send + Clone + Drop + 'static> ShopEnds
    for ShopSystem<R> {
    type Conn = Client;

    type Source = SocketSource<R>;

    type Sink = SocketSink<R>;

    type Clock = SystemClock<R>;

    fn another(&self) -> Result<ShopSystem<R>, NoMemory> {
        Ok(ShopSystem {
            rt: self.rt.clone()?,
            alloc: self.alloc,
            permits: Arc::try_clone(&self.permits)?,
            heads: Arc::try_clone(&self.heads)?,
            clock: self.clock.copy(self.rt.clone()?)?,
        })
    }

    fn clock(&self) -> Result<SystemClock<R>, NoMemory> {
        Ok(self.clock.copy(self.rt.clone()?)?)
    }

    fn open(&self, connection: Client) -> Result<(SocketSource<R>, SocketSink<R>), NoMemory> {
        let permits = Arc::try_clone(&self.permits)?;
        let heads = Arc::try_clone(&self.heads)?;
        let (source, sink) = ends_of(
            self.alloc,
            self.rt.clone()?,
            self.rt.clone()?,
            connection,
            permits,
        )?;
        Ok((source.telling(heads), sink))
    }

    fn close(&self, source: SocketSource<R>, sink: SocketSink<R>) {
        let _ = linger(source, sink);
    }
}
