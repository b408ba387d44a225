ghost use Rattle.std.specs.Prelude.{◌≡◌, is_some, None};
ghost use Rattle.std.specs.Option.{option_map};
ghost use Rattle.core_model.specs.DueJobs.{earliest, session_job};
ghost use Rattle.due_order.specs.Seen.{job_seen, first_seen};
ghost use Rattle.due_order.specs.Parts.{due_of, first_job_of};

use crate::jobs::{DueJob, Placed};
use crate::parts::{with_first_acquire, with_first_ask, with_opening, with_stream, with_writes};
use acquire_rows::Acquires;
use core_parts::{Opening, Seat};
use known_asks::Asks;
use lease_table::LeaseTable;
use wait_model::{Place, Sending};
use watch_merge::Broadcasts;

/// The first due job of all that a proxy has, or none where none is due; `writes` is where the first due call of a write stands.
pub fn first_job<'a>(
    seat: &'a Option<Seat>,
    table: &LeaseTable,
    writes: Option<Place>,
    acquires: &'a Acquires,
    asks: &'a Asks,
    leasing: &'a Option<Opening>,
    watches: &'a Broadcasts,
) -> Option<DueJob<'a>>
    ensures { option_map job_seen result ≡ first_job_of seat.now table.now.entries writes acquires.now asks.now leasing.now watches.now.streams }
{
    let own = session_job(seat);
    if own.is_some() {
        return own;
    }
    if table.first_rescind().is_some() {
        return Some(DueJob::Writes);
    }
    let first = earliest(writes, acquires, asks, leasing, watches);
    match first {
        None => None,
        Some(placed) => Some(placed.job),
    }
}

/// Whether a job is due.
pub fn has_job(
    seat: &Option<Seat>,
    table: &LeaseTable,
    writes: Option<Place>,
    acquires: &Acquires,
    asks: &Asks,
    leasing: &Option<Opening>,
    watches: &Broadcasts,
) -> bool
    ensures { result ≡ is_some (first_job_of seat.now table.now.entries writes acquires.now asks.now leasing.now watches.now.streams) }
{
    first_job(seat, table, writes, acquires, asks, leasing, watches).is_some()
}

/// The session's call, where it is due.
fn session_job(seat: &Option<Seat>) -> Option<DueJob<'_>>
    ensures { option_map job_seen result ≡ session_job seat.now }
{
    match seat {
        Some(seat) => match seat.call {
            Some(Sending::Due { .. }) => Some(DueJob::Session(&seat.session)),
            Some(Sending::Out { .. }) | None => None,
        },
        None => None,
    }
}

/// The first of all that is due beside the session's call and rescinds.
fn earliest<'a>(
    writes: Option<Place>,
    acquires: &'a Acquires,
    asks: &'a Asks,
    leasing: &'a Option<Opening>,
    watches: &'a Broadcasts,
) -> Option<Placed<'a>>
    ensures { first_seen result ≡ earliest None (due_of writes acquires.now asks.now leasing.now watches.now.streams) }
{
    let first = with_writes(None, writes);
    let first = with_first_acquire(first, acquires.first_due());
    let first = with_first_ask(first, asks.first_due());
    let first = with_opening(first, leasing);
    with_stream(first, watches.first_due())
}
