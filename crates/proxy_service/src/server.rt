ghost use Rattle.std.specs.Prelude.{◌≡◌, ◌≤◌, IfOk, length, true};
ghost use Rattle.turn_hub.specs.Known.{opening_of};
ghost use Rattle.core_model.specs.State.{first_core};
ghost use Rattle.proxy_parts.specs.Homes.{home_of};
ghost use Rattle.proxy_service.specs.Announced.{Announces};
ghost use Rattle.proxy_service.specs.Service.{Serves, seen};

use crate::clients::serve_clients;
use crate::ends::ServeEnd;
use crate::service::Service;
use crate::staff::start_staff;
use core_face::ProxyCore;
use core_model::Settings;
use etcd_types::{Bytes, List, NoMemory};
use outside::{Failed, Host, Sink, Spawner, write_whole};
use proxy_core::Core;
use proxy_parts::{Place, RefusalForm};
use std::alloc::Global;
use std::sync::{Arc, Wait};
use turn_hub::Hub;

/// The first place at a hub of its own, whose core is fresh.
fn first_place(
    alloc: Global,
    settings: Settings,
    hosts: List<Bytes>,
    message_limit: usize,
    form: RefusalForm,
) -> Result<Place, NoMemory>
    requires members { 1 ≤ settings.members }
    requires hosts { settings.members ≡ length hosts }
    ensures fresh { IfOk result (λ place. opening_of (home_of place).0.hub ≡ first_core settings) }
    ensures hosts { IfOk result (λ place. (home_of place).1 ≡ hosts) }
    ensures message_limit { IfOk result (λ place. (home_of place).2 ≡ message_limit) }
    ensures form { IfOk result (λ place. (home_of place).3 ≡ form) }
{
    let core = <Core as ProxyCore>::new(alloc, settings)?;
    let (hub, pass) = Hub::new(alloc, core)?;
    let hub = Arc::new(alloc, hub)?;
    let hosts = Arc::new(alloc, hosts)?;
    Ok(Place {
        hub,
        hosts,
        message_limit,
        form,
        pass,
    })
}

/// Writes that a server listens. Where that fails, nothing else is done about it.
fn announce<E: Sink>(errors: &mut E, line: &[u8])
    ensures { Announces line.now (E.written errors.old) (E.written errors.new)
        (E.faults errors.old) (E.faults errors.new) true }
{
    let _ = write_whole(errors, line);
}

/// Serves clients until no further one can come: it listens, tells this line, starts its workers and its ticker, and then a part for each client that it
/// accepts. A client whose part isn't started is dropped. It waits for as long as clients may come.
pub fn serve<R: Wait, H: Host, P: Spawner<Pass = Place, Conn = H::Conn>, E: Sink>(
    rt: &R,
    alloc: Global,
    service: Service,
    host: &mut H,
    spawner: &mut P,
    line: &[u8],
    errors: &mut E,
) -> ServeEnd
    requires members { 1 ≤ service.core.members }
    requires hosts { service.core.members ≡ length service.hosts }
    ensures { Serves service line.now (E.written errors.old) (E.written errors.new)
        (E.faults errors.old) (E.faults errors.new)
        (seen (H.made host.old) (H.faults host.old) (P.handed spawner.old) (P.faults spawner.old))
        (seen (H.made host.new) (H.faults host.new) (P.handed spawner.new) (P.faults spawner.new)) result }
{
    let Service {
        core,
        hosts,
        listen,
        workers,
        message_limit,
        form,
    } = service;
    let Ok(mut place) = first_place(alloc, core, hosts, message_limit, form) else {
        return ServeEnd::NoMemory;
    };
    if let Err(Failed) = host.listen(&listen) {
        return ServeEnd::ListenerFault;
    }
    announce(errors, line);
    if let Err(end) = start_staff(&mut place, workers, spawner) {
        return end;
    }
    serve_clients(rt, &mut place, host, spawner)
}
