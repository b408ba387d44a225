ghost use Rattle.std.specs.Prelude.{◌≡◌, ◌+◌, ◌^◌, min};
ghost use Rattle.proxy_parts.specs.Homes.{home_of};
ghost use Rattle.proxy_service.specs.Told.{IsTended, IsTendedOne};

use crate::ends::ServeEnd;
use crate::places::{NUMBERED, for_connection, tickets_of};
use outside::{Failed, Host, Part, Spawner};
use proxy_parts::Place;
use std::sync::Wait;

/// The number behind this one, up to the first whose connection has no tickets.
fn next_number(number: u64) -> u64
    ensures { result ≡ min (number + 1) (2 ^ 31) }
{
    number.saturating_add(1).min(NUMBERED)
}

/// Accepts a client, and starts a part for it. A client that isn't started is dropped.
fn serve_client<H: Host, P: Spawner<Pass = Place, Conn = H::Conn>>(
    place: &mut Place,
    number: u64,
    host: &mut H,
    spawner: &mut P,
) -> Result<(), ServeEnd>
    ensures stays { home_of place.new ≡ home_of place.old }
    ensures tended { IsTendedOne home_of (home_of place.old) number (H.made host.old) (H.made host.new) (P.handed spawner.old) (P.handed spawner.new) (H.faults host.old) (H.faults host.new) result }
{
    match host.accept() {
        Ok(Some(client)) => {
            let tickets = tickets_of(number);
            let Ok(seat) = for_connection(place, tickets) else {
                return Err(ServeEnd::NoMemory);
            };
            let _ = spawner.start(Part::Connection(seat, client, tickets));
            Ok(())
        }
        Ok(None) => Err(ServeEnd::Stopped),
        Err(Failed) => Err(ServeEnd::ListenerFault),
    }
}

/// Serves one client after the other, each by a part of its own, until no further one can come or is wanted.
pub(crate) fn serve_clients<R: Wait, H: Host, P: Spawner<Pass = Place, Conn = H::Conn>>(
    rt: &R,
    place: &mut Place,
    host: &mut H,
    spawner: &mut P,
) -> ServeEnd
    ensures tended { IsTended home_of (home_of place.old) (H.made host.old) (H.made host.new) (P.handed spawner.old) (P.handed spawner.new) (H.faults host.old) (H.faults host.new) result }
{
    let mut number = 0;
    'clients: for _ in rt.forever() {
        if let Err(end) = serve_client(place, number, host, spawner) {
            return end;
        }
        number = next_number(number);
    }
    unreachable!()
}
