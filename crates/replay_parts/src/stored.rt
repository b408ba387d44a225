ghost use Rattle.std.specs.Prelude.{◌≡◌, IfOk, IfErr};
ghost use Rattle.replay_parts.specs.Stored.{is_there, says_there};
ghost use Rattle.store_model.specs.Leases.{expired};
ghost use Rattle.store_model.specs.State.{State};
ghost use Rattle.store_model.specs.Step.{exec};
ghost use Rattle.store_model.specs.Transactions.{has_lease};
ghost use Rattle.store_model.specs.Watches.{opened};
ghost use Rattle.store_world.specs.Faults.{StepsTo, IsFault};
ghost use Rattle.store_world.specs.Store.{Stands, Takes};
ghost use Rattle.world_model.specs.Steps.{of_store};

use etcd_types::{Answer, Body, NoMemory, Request, WatchAsk};
use std::alloc::Global;
use store_refusals as refusals;
use store_world::{Store, StoreFault};
use world_model::WorldFault;

/// The store does nothing at a revision from this one on.
const LAST_REVISION: u64 = 0x7fff_ffff_ffff_ffff;

/// A member of the store does the request. A watch is none to do, and is refused.
#[tactic(auto, unfolding(store_model::specs::Step::exec))]
pub fn execute_at(
    alloc: Global,
    store: &mut Store,
    member: u32,
    request: &Request,
) -> Result<Answer, NoMemory>
    ensures { IfOk result (λ answer. (s : State) → Stands store.old s → Takes store.new answer (exec s member request.now)) }
{
    if let Request::Watch(_) = request {
        return Ok(Answer::Refused(refusals::unsupported(alloc)?));
    }
    if member == 0 || store.members() < u64::from(member) || store.newest() >= LAST_REVISION {
        return Err(NoMemory);
    }
    Ok(store.execute_at(member, request)?)
}

/// Opens a watch at a member of the store.
pub fn open_watch(store: &mut Store, member: u32, ask: &WatchAsk) -> Result<(), NoMemory>
    ensures { IfOk result (λ _. (s : State) → Stands store.old s → Stands store.new (opened s member ask.now).0) }
{
    if member == 0 || store.members() < u64::from(member) {
        return Err(NoMemory);
    }
    store.open_watch(member, ask)?;
    Ok(())
}

/// Whether there is a lease of this number.
#[tactic(auto, using(crate::proofs::Leases::told_lease), unfolding(store_model::specs::Step::exec))]
pub fn has_lease(store: &mut Store, lease: u64) -> Result<bool, NoMemory>
    ensures same { (s : State) → Stands store.old s → Stands store.new s }
    ensures there { IfOk result (λ there. (s : State) → Stands store.old s → there ≡ has_lease s.leases lease) }
{
    if store.newest() >= LAST_REVISION {
        return Err(NoMemory);
    }
    let request = Request::TimeToLive { lease, keys: false };
    let answer = store.execute(&request)?;
    Ok(says_there(&answer))
}

/// Whether a reply on a lease's time to live says that there is such a lease.
fn says_there(answer: &Answer) -> bool
    ensures { result ≡ says_there answer.now }
{
    match answer {
        Answer::Done(reply) => is_there(&reply.body),
        Answer::Refused(_) => false,
    }
}

fn is_there(body: &Body) -> bool
    ensures { result ≡ is_there body.now }
{
    match body {
        Body::TimeToLive { ttl, .. } => *ttl >= 0,
        _ => false,
    }
}

/// A lease expires at the store.
pub fn expire(store: &mut Store, lease: u64) -> Result<(), StoreFault>
    ensures step { IfOk result (λ _. (s : State) → Stands store.old s → StepsTo store.new (expired s lease)) }
    ensures fault { IfErr result (λ fault. (s : State) → Stands store.old s → IsFault fault (expired s lease)) }
    ensures same { IfErr result (λ fault. store.new ≡ store.old) }
{
    if store.newest() >= LAST_REVISION {
        return Err(StoreFault::NoMemory);
    }
    store.expire(lease)
}

/// The line's fault where the store has one.
pub fn stream_fault(stream: u64, fault: StoreFault) -> WorldFault
    ensures { result ≡ of_store stream fault }
{
    match fault {
        StoreFault::NoSuchLease(lease) => WorldFault::NoSuchLease(lease),
        StoreFault::BadApply { applied, newest } => WorldFault::BadApply { applied, newest },
        StoreFault::NoSuchMember(member) => WorldFault::NoSuchMember(u64::from(member)),
        StoreFault::NoSuchWatch(_) => WorldFault::NoSuchStream(stream),
        StoreFault::NothingToPush(_) => WorldFault::NothingToPush(stream),
        StoreFault::NotAsked(_) => WorldFault::NotAsked(stream),
        StoreFault::NotSynced { next, newest } => WorldFault::NotSynced { next, newest },
        StoreFault::NoMemory => WorldFault::NoMemory,
    }
}
