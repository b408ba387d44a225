ghost use Rattle.std.specs.Prelude.{◌≡◌, IfOk, OnOk};
ghost use Rattle.world_model.specs.Places.{kept_at};
ghost use Rattle.world_model.specs.Floors.{floors_after, granted_floor, kept_floor, later, lives_until, counts};

use crate::numbers::Numbers;
use etcd_types::{Answer, Body, NoMemory, Request};
use proxy_model::FIRST_SESSION;
use world_model::{Floor, SentCall};

/// What an answer of the store to a call makes of the sessions' floors.
pub fn raise_floors(
    floors: &mut Numbers<Floor>,
    call: &SentCall,
    answer: &Answer,
) -> Result<(), NoMemory>
    ensures { OnOk result (floors.new ≡ floors_after call.now answer.now floors.old) }
{
    let Answer::Done(reply) = answer else {
        return Ok(());
    };
    match (&call.request, &reply.body) {
        (Request::Grant { .. }, Body::Grant { lease, ttl }) => Ok(grant(
            floors, call, *lease, *ttl,
        )?),
        (Request::KeepAlive { .. }, Body::KeepAlive { lease, ttl }) => {
            Ok(keep(floors, call, *lease, *ttl)?)
        }
        _ => Ok(()),
    }
}

/// Whether an answer with this lease and time to live counts: that of a session, with some time to live.
fn counts(lease: u64, ttl: u64) -> bool
    ensures { result ≡ counts lease ttl }
{
    lease >= FIRST_SESSION && ttl > 0
}

/// Until when the session lives at the least, in milliseconds of the clock of the proxy that sent the call.
fn lives_until(call: &SentCall, ttl: u64) -> Result<u64, NoMemory>
    ensures { IfOk result (λ until. until ≡ lives_until call.now ttl) }
{
    match ttl.checked_mul(1000) {
        Some(millis) => call.clock.checked_add(millis).ok_or(NoMemory),
        None => Err(NoMemory),
    }
}

/// The later one of this time and of the floor that is kept for the lease.
fn later(floors: &Numbers<Floor>, lease: u64, until: u64) -> u64
    ensures { result ≡ later until (kept_at floors.now lease) }
{
    match floors.find(lease).copied() {
        Some(old) => old.floor.max(until),
        None => until,
    }
}

fn grant(floors: &mut Numbers<Floor>, call: &SentCall, lease: u64, ttl: u64) -> Result<(), NoMemory>
    ensures { OnOk result (floors.new ≡ granted_floor call.now lease ttl floors.old) }
{
    if !counts(lease, ttl) {
        return Ok(());
    }
    let until = lives_until(call, ttl)?;
    let floor = later(floors, lease, until);
    let proxy = call.proxy;
    Ok(floors.put(lease, Floor { proxy, floor })?)
}

fn keep(floors: &mut Numbers<Floor>, call: &SentCall, lease: u64, ttl: u64) -> Result<(), NoMemory>
    ensures { OnOk result (floors.new ≡ kept_floor call.now lease ttl floors.old) }
{
    if !counts(lease, ttl) {
        return Ok(());
    }
    let until = lives_until(call, ttl)?;
    let Some(old) = floors.find(lease).copied() else {
        return Ok(());
    };
    let floor = Floor {
        proxy: old.proxy,
        floor: old.floor.max(until),
    };
    Ok(floors.put(lease, floor)?)
}
