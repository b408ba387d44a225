use crate::settings::{clients, service};
use etcd_types::NoMemory;
use outside::{MemHost, MemSink, MemSpawner};
use proxy_parts::Place;
use proxy_service::{ServeEnd, serve};
use std::alloc::Global;
use std::sync::Wait;

/// Which call is to fail.
#[derive(Clone, Copy, Debug, PartialEq, Eq)]
pub(crate) enum Fails {
    /// The start of a part, by its number from 1 on.
    Start(u64),
    /// A call of the host, of which the first listens and each other accepts.
    Host(u64),
    /// None: the host is told to stop once no client is left.
    Nothing,
}

/// How a server with two clients ends where that call fails, and how many parts were started.
pub(crate) fn started<R: Wait>(
    rt: &R,
    alloc: Global,
    fails: Fails,
) -> Result<(ServeEnd, usize), NoMemory> {
    let mut starts = Vec::new(alloc);
    let mut calls = Vec::new(alloc);
    match fails {
        Fails::Start(number) => starts.push(number)?,
        Fails::Host(number) => calls.push(number)?,
        Fails::Nothing => {}
    }
    let mut host = MemHost::new(alloc, clients(alloc, 2)?, calls);
    if fails == Fails::Nothing {
        host = host.stopping();
    }
    let mut spawner: MemSpawner<Place, u32> = MemSpawner::new(alloc, starts);
    let mut errors = MemSink::new(alloc, usize::MAX, Vec::new(alloc));
    let line = b"serving\n";
    let end = serve(
        rt,
        alloc,
        service(alloc)?,
        &mut host,
        &mut spawner,
        line,
        &mut errors,
    );
    Ok((end, spawner.parts().len()))
}
