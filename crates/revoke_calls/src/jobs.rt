ghost use Rattle.std.specs.Prelude.{◌≡◌, ◌++◌, true, IfOk, OnOk, List, ℕ};
ghost use Rattle.std.specs.Option.{option_copied};
ghost use Rattle.proxy_model.specs.Guarded.{create_or};
ghost use Rattle.wait_model.specs.Fits.{is_proper};
ghost use Rattle.wait_model.specs.Sent.{kind_of, compared};
ghost use Rattle.revoke_calls.specs.Jobs.{rescind_due, revoke_due, write_due, owned_if, owned_over};

use crate::stages::{is_owner, is_single};
use etcd_types::{Bytes, KeyRange, NoMemory};
use lease_table::{Entry, LeaseTable, Phase};
use lease_txn::{ask_revoke, guarded_write, rescind};
use proxy_model::Owned;
use std::alloc::Global;
use wait_model::{Due, DueCall, DueKind, Write};

/// A call that gives the key up whose ownership key has this create revision.
pub fn rescind_due(alloc: Global, prefix: &Bytes, key: &Bytes, create: u64) -> Result<Due, NoMemory>
    ensures { IfOk result (λ due. due ≡ rescind_due prefix.now key.now create) }
{
    Ok(Due {
        kind: DueKind::Rescind,
        ticket: 0,
        request: rescind(alloc, prefix, key, create)?,
    })
}

/// The due revoke call of the write of this ticket.
pub fn revoke_due(
    alloc: Global,
    prefix: &Bytes,
    ticket: u64,
    call: &DueCall,
) -> Result<Due, NoMemory>
    ensures { IfOk result (λ due. due ≡ revoke_due prefix.now ticket call.now) }
{
    Ok(Due {
        kind: DueKind::AskRevoke,
        ticket,
        request: ask_revoke(alloc, prefix, &call.key, call.create)?,
    })
}

/// The write's own call: behind the ownership keys of all that it writes, of which the table has some.
pub fn write_due(
    alloc: Global,
    prefix: &Bytes,
    write: &Write,
    table: &LeaseTable,
) -> Result<Due, NoMemory>
    requires { is_proper write.now ≡ true }
    ensures { IfOk result (λ due. due ≡ write_due prefix.now table.now.entries write.now) }
{
    let owned = owned_of(alloc, write, table)?;
    Ok(Due {
        kind: kind_of(write),
        ticket: write.ticket,
        request: guarded_write(alloc, prefix, &write.request, owned.as_slice())?,
    })
}

fn kind_of(write: &Write) -> DueKind
    ensures { result ≡ kind_of write.now }
{
    if is_owner(&write.stage) {
        DueKind::Owner
    } else if is_single(&write.request) {
        DueKind::Guest
    } else {
        DueKind::Several
    }
}

/// The entries that the write compares.
fn owned_of(alloc: Global, write: &Write, table: &LeaseTable) -> Result<Vec<Owned>, NoMemory>
    requires { is_proper write.now ≡ true }
    ensures { IfOk result (λ owned. (k : List ℕ) → create_or 0 owned.items k ≡ compared write.now table.now.entries k) }
{
    if is_owner(&write.stage) {
        Ok(owned_over(alloc, write.ranges.as_slice(), table)?)
    } else {
        Ok(Vec::new(alloc))
    }
}

fn owned_over(
    alloc: Global,
    ranges: &[KeyRange],
    table: &LeaseTable,
) -> Result<Vec<Owned>, NoMemory>
    ensures { IfOk result (λ owned. owned.items ≡ owned_over table.now.entries ranges.now) }
{
    let mut owned = Vec::new(alloc);
    for range in ranges {
        add_owned(alloc, &range.key, table.find(&range.key), &mut owned)?;
    }
    Ok(owned)
}

/// Adds the key, where its entry is being written.
fn add_owned(
    alloc: Global,
    key: &Bytes,
    entry: Option<&Entry>,
    owned: &mut Vec<Owned>,
) -> Result<(), NoMemory>
    ensures { OnOk result (owned.new.items ≡ owned.old.items ++ owned_if key.now (option_copied entry.entry)) }
{
    match entry {
        Some(
            Entry {
                create,
                phase: Phase::Writing { .. },
                ..
            },
        ) => {
            owned.push(Owned {
                key: key.copy(alloc)?,
                create: *create,
            })?;
            Ok(())
        }
        _ => Ok(()),
    }
}
