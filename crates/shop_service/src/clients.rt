ghost use Rattle.std.specs.Prelude.{◌≡◌, IfOk};
ghost use Rattle.store_serve.specs.Homes.{home_of};
ghost use Rattle.shop_service.specs.Told.{IsTended, IsTendedOne};

use etcd_types::NoMemory;
use outside::{Failed, Host, Part, Spawner, TicketRange};
use proxy_service::ServeEnd;
use std::sync::{Arc, Wait};
use store_serve::StorePlace;

/// The store's clients have no tickets.
const NO_TICKETS: TicketRange = TicketRange { next: 1, end: 1 };

/// A further place at the same hub.
fn beside(place: &mut StorePlace) -> Result<StorePlace, NoMemory>
    ensures stays { home_of place.new ≡ home_of place.old }
    ensures home { IfOk result (λ further. home_of further ≡ home_of place.old) }
{
    let hub = Arc::try_clone(&place.hub)?;
    let pass = place.hub.split(&mut place.pass);
    Ok(StorePlace { hub, pass })
}

/// Accepts a client, and starts a connection for it. A client that isn't started is dropped.
fn serve_client<H: Host, Q: Spawner<Pass = StorePlace, Conn = H::Conn>>(
    place: &mut StorePlace,
    host: &mut H,
    shops: &mut Q,
) -> Result<(), ServeEnd>
    ensures stays { home_of place.new ≡ home_of place.old }
    ensures tended { IsTendedOne home_of (home_of place.old) (H.made host.old) (H.made host.new) (Q.handed shops.old) (Q.handed shops.new) (H.faults host.old) (H.faults host.new) result }
{
    match host.accept() {
        Ok(Some(client)) => {
            let Ok(seat) = beside(place) else {
                return Err(ServeEnd::NoMemory);
            };
            let _ = shops.start(Part::Connection(seat, client, NO_TICKETS));
            Ok(())
        }
        Ok(None) => Err(ServeEnd::Stopped),
        Err(Failed) => Err(ServeEnd::ListenerFault),
    }
}

/// Serves one client after the other, each by a connection of its own, until no further one can come or is wanted.
pub(crate) fn serve_clients<R: Wait, H: Host, Q: Spawner<Pass = StorePlace, Conn = H::Conn>>(
    rt: &R,
    place: &mut StorePlace,
    host: &mut H,
    shops: &mut Q,
) -> ServeEnd
    ensures tended { IsTended home_of (home_of place.old) (H.made host.old) (H.made host.new) (Q.handed shops.old) (Q.handed shops.new) (H.faults host.old) (H.faults host.new) result }
{
    'clients: for _ in rt.forever() {
        if let Err(end) = serve_client(place, host, shops) {
            return end;
        }
    }
    unreachable!()
}
