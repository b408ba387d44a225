ghost use Rattle.std.specs.Prelude.{◌≡◌, ◌≤◌, ◌^◌, IfOk};
ghost use Rattle.proxy_parts.specs.Homes.{home_of};
ghost use Rattle.proxy_service.specs.Parts as spec;

use etcd_types::NoMemory;
use outside::TicketRange;
use proxy_core::{WORKERS, lot_of_ticket};
use proxy_parts::Place;
use std::sync::Arc;

/// So many connections have tickets, the first ones: the tickets of more aren't counted.
pub(crate) const NUMBERED: u64 = 1 << 31;

/// So many tickets a connection has.
const TICKETS: u64 = 1 << 32;

/// A further place at the same hub, with the same hosts, the same limit of a message and the same form of refusals.
pub(crate) fn beside(place: &mut Place) -> Result<Place, NoMemory>
    ensures stays { home_of place.new ≡ home_of place.old }
    ensures home { IfOk result (λ further. home_of further ≡ home_of place.old) }
{
    let hub = Arc::try_clone(&place.hub)?;
    let hosts = Arc::try_clone(&place.hosts)?;
    let pass = place.hub.split(&mut place.pass);
    let message_limit = place.message_limit;
    let form = place.form;
    Ok(Place {
        hub,
        hosts,
        message_limit,
        form,
        pass,
    })
}

/// A place for a worker, which rests among the others.
pub(crate) fn for_worker(place: &mut Place) -> Result<Place, NoMemory>
    ensures stays { home_of place.new ≡ home_of place.old }
    ensures home { IfOk result (λ further. home_of further ≡ home_of place.old) }
{
    let mut further = beside(place)?;
    further.pass.rest_in_crew(WORKERS);
    Ok(further)
}

/// A place for a connection with these tickets, which rests in their lot.
pub(crate) fn for_connection(place: &mut Place, tickets: TicketRange) -> Result<Place, NoMemory>
    ensures stays { home_of place.new ≡ home_of place.old }
    ensures home { IfOk result (λ further. home_of further ≡ home_of place.old) }
{
    let mut further = beside(place)?;
    further.pass.rest_in_lot(lot_of_ticket(tickets.next));
    Ok(further)
}

/// The tickets of the connection of this number, the first one's 0: 2^32 for each of the first 2^31 connections, and none for the others.
pub(crate) fn tickets_of(number: u64) -> TicketRange
    ensures { result ≡ spec.tickets_of number }
{
    let front = number.min(NUMBERED);
    let behind = number.saturating_add(1).min(NUMBERED);
    TicketRange {
        next: front * TICKETS + 1,
        end: behind * TICKETS + 1,
    }
}
