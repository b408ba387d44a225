ghost use Rattle.std.specs.Prelude.{◌≡◌, IfOk, IfErr};
ghost use Rattle.std.specs.Option.{option_copied};
ghost use Rattle.audit_model.specs.Order.{is_ok};
ghost use Rattle.audit_text.specs.Stored.{Answers, Comes, Steps, is_out_of_memory};
ghost use Rattle.store_model.specs.Leases.{expired};
ghost use Rattle.store_model.specs.Members.{applied as applying};
ghost use Rattle.store_model.specs.State.{State};
ghost use Rattle.store_model.specs.Step.{exec};
ghost use Rattle.store_model.specs.Watches.{opened, pushed as pushing, progressed as progressing};
ghost use Rattle.audit_store.specs.Faults.{StepsTo, IsFault};
ghost use Rattle.audit_store.specs.Store.{Stands, Takes};
ghost use Rattle.watch_model.specs.Queues.{is_progress as is_about_progress};
ghost use Rattle.world_model.specs.Answers.{after_opening, message_by};

use audit_store::{Store, StoreFault};
use etcd_types::{Answer, NoMemory, Request, WatchAsk, WatchItem};
use std::alloc::Global;
use store_refusals as refusals;

/// A store has fewer members than this.
const LAST_MEMBER: u64 = 0xffff_ffff;

/// The store does nothing at a revision from this one on.
const LAST_REVISION: u64 = 0x7fff_ffff_ffff_ffff;

/// A member of the store does the request. A watch is none to do, and is refused.
#[tactic(auto, unfolding(store_model::specs::Step::exec))]
fn execute_at(
    alloc: Global,
    store: &mut Store,
    member: u32,
    request: &Request,
) -> Result<Answer, NoMemory>
    ensures { IfOk result (λ answer. (s : State) → Stands store.old s → Takes store.new answer (exec s member request.now)) }
{
    if let Request::Watch(_) = request {
        return Ok(Answer::Refused(refusals::unsupported(alloc)?));
    }
    if member == 0 || store.members() < u64::from(member) || store.newest() >= LAST_REVISION {
        return Err(NoMemory);
    }
    Ok(store.execute_at(member, request)?)
}

/// Opens a watch at a member of the store.
fn open_watch(store: &mut Store, member: u32, ask: &WatchAsk) -> Result<(), NoMemory>
    ensures { IfOk result (λ _. (s : State) → Stands store.old s → Stands store.new (opened s member ask.now).0) }
{
    if member == 0 || store.members() < u64::from(member) {
        return Err(NoMemory);
    }
    store.open_watch(member, ask)?;
    Ok(())
}

/// A lease expires at the store.
fn expire(store: &mut Store, lease: u64) -> Result<(), StoreFault>
    ensures step { IfOk result (λ _. (s : State) → Stands store.old s → StepsTo store.new (expired s lease)) }
    ensures fault { IfErr result (λ fault. (s : State) → Stands store.old s → IsFault fault (expired s lease)) }
    ensures same { IfErr result (λ fault. store.new ≡ store.old) }
{
    if store.newest() >= LAST_REVISION {
        return Err(StoreFault::NoMemory);
    }
    store.expire(lease)
}

fn is_memory(fault: &StoreFault) -> bool
    ensures { result ≡ is_out_of_memory fault.now }
{
    match fault {
        StoreFault::NoMemory => true,
        _ => false,
    }
}

/// What the store answers to a call, where there is one, at its member.
pub(crate) fn answer_of(
    alloc: Global,
    store: &mut Store,
    call: Option<&(u64, Request)>,
) -> Result<Option<Answer>, NoMemory>
    ensures { IfOk result (λ due. (s : State) → Stands store.old s → Answers s (option_copied call.entry) store.new due) }
{
    match call {
        None => Ok(None),
        Some((member, request)) => {
            if *member >= LAST_MEMBER {
                return Err(NoMemory);
            }
            Ok(Some(execute_at(alloc, store, *member as u32, request)?))
        }
    }
}

/// A stream is opened at a member of the store, where this is a watch.
pub(crate) fn open(store: &mut Store, member: u64, request: &Request) -> Result<(), NoMemory>
    ensures { IfOk result (λ _. (s : State) → Stands store.old s → Stands store.new (after_opening s member request.now)) }
{
    match request {
        Request::Watch(ask) => {
            if member >= LAST_MEMBER {
                return Err(NoMemory);
            }
            open_watch(store, member as u32, ask)
        }
        _ => Ok(()),
    }
}

/// The next message of a stream, where there is one.
pub(crate) fn pushed(store: &mut Store, stream: u64) -> Result<Option<WatchItem>, NoMemory>
    ensures { IfOk result (λ due. (s : State) → Stands store.old s → Comes s (pushing s stream) store.new due) }
{
    match store.push(stream) {
        Ok(message) => Ok(Some(message)),
        Err(fault) => {
            if is_memory(&fault) {
                return Err(NoMemory);
            }
            Ok(None)
        }
    }
}

/// The message on a stream's progress, where there is one.
pub(crate) fn progressed(store: &mut Store, stream: u64) -> Result<Option<WatchItem>, NoMemory>
    ensures { IfOk result (λ due. (s : State) → Stands store.old s → Comes s (progressing s stream) store.new due) }
{
    match store.progress(stream) {
        Ok(message) => Ok(Some(message)),
        Err(fault) => {
            if is_memory(&fault) {
                return Err(NoMemory);
            }
            Ok(None)
        }
    }
}

fn is_progress(message: &WatchItem) -> bool
    ensures { result ≡ is_about_progress message.now }
{
    match message {
        WatchItem::Events { events, .. } => events.len() == 0,
        _ => false,
    }
}

/// The message that a stream has where one of this kind is told, where there is one.
pub(crate) fn message_of(
    store: &mut Store,
    stream: u64,
    told: &WatchItem,
) -> Result<Option<WatchItem>, NoMemory>
    ensures { IfOk result (λ due. (s : State) → Stands store.old s → Comes s (message_by s stream told.now) store.new due) }
{
    if is_progress(told) {
        Ok(progressed(store, stream)?)
    } else {
        Ok(pushed(store, stream)?)
    }
}

/// Whether there is such a lease. Where there is, it expires.
pub(crate) fn expires(store: &mut Store, lease: u64) -> Result<bool, NoMemory>
    ensures { IfOk result (λ there. (s : State) → Stands store.old s → Steps s (expired s lease) store.new there) }
{
    match expire(store, lease) {
        Ok(()) => Ok(true),
        Err(fault) => {
            if is_memory(&fault) {
                return Err(NoMemory);
            }
            Ok(false)
        }
    }
}

/// Whether the member can apply the revision. Where it can, it does.
pub(crate) fn applies(store: &mut Store, member: u64, revision: u64) -> Result<bool, NoMemory>
    ensures { IfOk result (λ there. (s : State) → Stands store.old s → Steps s (applying s member revision) store.new there) }
{
    if member >= LAST_MEMBER {
        return Err(NoMemory);
    }
    match store.apply(member as u32, revision) {
        Ok(()) => Ok(true),
        Err(fault) => {
            if is_memory(&fault) {
                return Err(NoMemory);
            }
            Ok(false)
        }
    }
}
