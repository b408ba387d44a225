ghost use Rattle.std.specs.Prelude.{◌≡◌, ◌∷◌, [], IfErr};
ghost use Rattle.outside.specs.Calls.{Adds, is_done};
ghost use Rattle.outside.specs.Faults.{HasCause};
ghost use Rattle.proxy_parts.specs.Homes.{home_of};
ghost use Rattle.proxy_service.specs.Parts as spec;
ghost use Rattle.proxy_service.specs.Told.{IsStarted};

use crate::ends::ServeEnd;
use crate::places::{beside, for_worker};
use outside::{Part, Spawner};
use proxy_parts::Place;

/// Starts a part without which no client is served.
fn start<P: Spawner<Pass = Place>>(
    part: Part<Place, P::Conn>,
    spawner: &mut P,
) -> Result<(), ServeEnd>
where
    P::Conn: Drop,
    ensures handed { Adds (P.handed spawner.old) (P.handed spawner.new) (record { part = part; started = is_done result } ∷ []) }
    ensures end { IfErr result (λ end. end ≡ ServeEnd.SpawnerFault) }
    ensures cause { HasCause (P.faults spawner.old) (P.faults spawner.new) result }
{
    match spawner.start(part) {
        Ok(()) => Ok(()),
        Err(_) => Err(ServeEnd::SpawnerFault),
    }
}

/// Starts so many workers.
fn start_workers<P: Spawner<Pass = Place>>(
    place: &mut Place,
    count: u32,
    spawner: &mut P,
) -> Result<(), ServeEnd>
where
    P::Conn: Drop,
    ensures stays { home_of place.new ≡ home_of place.old }
    ensures started { IsStarted home_of (spec.workers (home_of place.old) count) (P.handed spawner.old) (P.handed spawner.new) (P.faults spawner.old) (P.faults spawner.new) result }
{
    for _ in 0..count {
        let Ok(seat) = for_worker(place) else {
            return Err(ServeEnd::NoMemory);
        };
        start(Part::Worker(seat), spawner)?;
    }
    Ok(())
}

/// Starts so many workers, and then the ticker.
pub(crate) fn start_staff<P: Spawner<Pass = Place>>(
    place: &mut Place,
    workers: u32,
    spawner: &mut P,
) -> Result<(), ServeEnd>
where
    P::Conn: Drop,
    ensures stays { home_of place.new ≡ home_of place.old }
    ensures started { IsStarted home_of (spec.staff (home_of place.old) workers) (P.handed spawner.old) (P.handed spawner.new) (P.faults spawner.old) (P.faults spawner.new) result }
{
    start_workers(place, workers, spawner)?;
    let Ok(seat) = beside(place) else {
        return Err(ServeEnd::NoMemory);
    };
    start(Part::Ticker(seat), spawner)
}
