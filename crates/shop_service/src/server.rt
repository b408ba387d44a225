ghost use Rattle.std.specs.Prelude.{IfOk, true};
ghost use Rattle.turn_hub.specs.Known.{opening_of};
ghost use Rattle.shop_model.specs.Shop.{first_shop};
ghost use Rattle.store_machine.specs.Standing.{Stands};
ghost use Rattle.store_serve.specs.Homes.{home_of};
ghost use Rattle.proxy_service.specs.Announced.{Announces};
ghost use Rattle.shop_service.specs.Service.{Serves, seen};

use crate::clients::serve_clients;
use etcd_types::{Bytes, NoMemory};
use outside::{Failed, Host, Sink, Spawner, write_whole};
use proxy_service::ServeEnd;
use std::alloc::Global;
use std::sync::{Arc, Wait};
use store_serve::{StoreMachine, StorePlace};
use turn_hub::Hub;

/// The first place at a hub of its own, whose store has nothing in it.
fn first_place(alloc: Global) -> Result<StorePlace, NoMemory>
    ensures { IfOk result (λ place. Stands (opening_of (home_of place).hub) first_shop) }
{
    let machine = StoreMachine::new(alloc)?;
    let (hub, pass) = Hub::new(alloc, machine)?;
    let hub = Arc::new(alloc, hub)?;
    Ok(StorePlace { hub, pass })
}

/// Writes that the store is served. Where that fails, nothing else is done about it.
fn announce<E: Sink>(errors: &mut E, line: &[u8])
    ensures { Announces line.now (E.written errors.old) (E.written errors.new) (E.faults errors.old) (E.faults errors.new) true }
{
    let _ = write_whole(errors, line);
}

/// Serves a store with nothing in it until no further client can come: it listens on this address, tells this line, and then starts a
/// connection for each client that it accepts, all at one hub. A client whose connection isn't started is dropped. It waits for as long as
/// clients may come.
pub fn serve_shop<R: Wait, H: Host, Q: Spawner<Pass = StorePlace, Conn = H::Conn>, E: Sink>(
    rt: &R,
    alloc: Global,
    address: &Bytes,
    host: &mut H,
    shops: &mut Q,
    line: &[u8],
    errors: &mut E,
) -> ServeEnd
    ensures { Serves address.now line.now (E.written errors.old) (E.written errors.new) (E.faults errors.old) (E.faults errors.new)
        (seen (H.made host.old) (H.faults host.old) (Q.handed shops.old))
        (seen (H.made host.new) (H.faults host.new) (Q.handed shops.new)) result }
{
    let Ok(mut place) = first_place(alloc) else {
        return ServeEnd::NoMemory;
    };
    if let Err(Failed) = host.listen(address) {
        return ServeEnd::ListenerFault;
    }
    announce(errors, line);
    serve_clients(rt, &mut place, host, shops)
}
