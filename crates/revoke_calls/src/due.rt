ghost use Rattle.std.specs.Prelude.{◌≡◌, ◌&&◌, ◌||◌, nat_lt, None, Some, IfOk, OnOk};
ghost use Rattle.etcd_types.specs.Keys.{before, same};
ghost use Rattle.std.specs.List.{flat_map};
ghost use Rattle.wait_model.specs.DueOrder.{first_call, soonest, sooner, is_sooner, due_of, due_found, call_at, revoke_at, kind_rank, less_then};

use etcd_types::{Bytes, NoMemory};
use std::alloc::Global;
use wait_model::{Asking, DueCall, Found, JobKind, Place, Sending, Write, WriteStage};

/// The first due call of the writes, in the order of sending; nothing where none is due.
pub fn first_call(alloc: Global, writes: &[Write]) -> Result<Option<DueCall>, NoMemory>
    ensures { IfOk result (λ first. first ≡ first_call writes.now) }
{
    let mut first = None;
    for write in writes {
        add_write(alloc, write, &mut first)?;
    }
    Ok(first)
}

fn add_write(alloc: Global, write: &Write, first: &mut Option<DueCall>) -> Result<(), NoMemory>
    ensures { OnOk result (first.new ≡ soonest first.old (due_of write.now)) }
{
    match &write.stage {
        WriteStage::Sends {
            sending: Sending::Due { since },
            ..
        } => {
            keep_sooner(own_call(alloc, write.ticket, *since), first);
            Ok(())
        }
        WriteStage::Finds { found } => add_found(alloc, write.ticket, found.as_slice(), first),
        WriteStage::Waiting | WriteStage::Sends { .. } => Ok(()),
    }
}

fn add_found(
    alloc: Global,
    ticket: u64,
    found: &[Found],
    first: &mut Option<DueCall>,
) -> Result<(), NoMemory>
    ensures { OnOk result (first.new ≡ soonest first.old (flat_map (due_found ticket) found.now)) }
{
    for one in found {
        add_asking(alloc, ticket, one, first)?;
    }
    Ok(())
}

fn add_asking(
    alloc: Global,
    ticket: u64,
    found: &Found,
    first: &mut Option<DueCall>,
) -> Result<(), NoMemory>
    ensures { OnOk result (first.new ≡ soonest first.old (due_found ticket found.now)) }
{
    match found.revoke {
        Asking::Due { since } => {
            keep_sooner(revoke_call(alloc, ticket, since, found)?, first);
            Ok(())
        }
        Asking::Out { .. } | Asking::Done => Ok(()),
    }
}

fn own_call(alloc: Global, ticket: u64, since: u64) -> DueCall
    ensures { result ≡ call_at ticket since }
{
    DueCall {
        place: Place {
            since,
            kind: JobKind::Call,
            number: ticket,
        },
        key: Bytes::new(alloc),
        create: 0,
    }
}

fn revoke_call(alloc: Global, ticket: u64, since: u64, found: &Found) -> Result<DueCall, NoMemory>
    ensures { IfOk result (λ call. call ≡ revoke_at ticket since found.now) }
{
    Ok(DueCall {
        place: Place {
            since,
            kind: JobKind::Revoke,
            number: ticket,
        },
        key: found.key.copy(alloc)?,
        create: found.create,
    })
}

/// Keeps the one of both that is sent first.
fn keep_sooner(call: DueCall, first: &mut Option<DueCall>)
    ensures { first.new ≡ Some (sooner first.old call) }
{
    match first {
        None => *first = Some(call),
        Some(other) => {
            if is_sooner(&call, other) {
                *other = call;
            }
        }
    }
}

/// Whether the call is sent before the other one.
fn is_sooner(call: &DueCall, other: &DueCall) -> bool
    ensures { result ≡ is_sooner call.now other.now }
{
    let rank = kind_rank(call.place.kind);
    let other_rank = kind_rank(other.place.kind);
    less_then(
        call.place.since,
        other.place.since,
        less_then(rank, other_rank, is_sooner_by_key(call, other)),
    )
}

/// Whether it is sent before the other one of the same step and kind.
fn is_sooner_by_key(call: &DueCall, other: &DueCall) -> bool
    ensures { result ≡ (before call.now.key other.now.key || (same call.now.key other.now.key && nat_lt call.now.place.number other.now.place.number)) }
{
    !(other.key <= call.key) || (call.key == other.key && call.place.number < other.place.number)
}

pub(crate) fn less_then(number: u64, other: u64, rest: bool) -> bool
    ensures { result ≡ less_then number other rest }
{
    number < other || (number == other && rest)
}

pub(crate) fn kind_rank(kind: JobKind) -> u64
    ensures { result ≡ kind_rank kind }
{
    match kind {
        JobKind::Revoke => 0,
        JobKind::Call => 1,
        JobKind::Close => 2,
        JobKind::Open => 3,
    }
}
