ghost use Rattle.std.specs.Prelude.{◌≡◌, true, IfOk, OnOk, OnErr};
ghost use Rattle.wait_model.specs.Fits.{is_proper};
ghost use Rattle.revoke_calls.specs.Failed.{failed_stage, failed_entries, failed_found, found_entries};

use crate::ends::{drop_owned, keep_shown};
use crate::owners::{found_in, give_up_own, other_owners};
use crate::stages::{guest_since, is_owner, is_single};
use etcd_types::NoMemory;
use lease_table::LeaseTable;
use proxy_model::Owner;
use std::alloc::Global;
use wait_model::{FoundList, Write, WriteStage};

/// The write failed, and its answer showed these owners: the stage in which it goes on, as a guest or behind what it found. Where
/// memory was wanting the entries are as before.
pub fn fail(
    alloc: Global,
    write: &Write,
    owners: &[Owner],
    step: u64,
    session: Option<u64>,
    table: &mut LeaseTable,
) -> Result<WriteStage, NoMemory>
    requires { is_proper write.now ≡ true }
    ensures stage { IfOk result (λ stage. stage ≡ failed_stage session step write.now owners.now table.old.entries) }
    ensures entries { OnOk result (table.new.entries ≡ failed_entries session write.now owners.now table.old.entries) }
    ensures err { OnErr result (table.new.entries ≡ table.old.entries) }
{
    if is_owner(&write.stage) && is_single(&write.request) {
        drop_owned(write, table);
        Ok(guest_since(step))
    } else {
        let found = find(alloc, write, owners, step, session, table)?;
        Ok(WriteStage::Finds { found })
    }
}

/// What the write waits for.
fn find(
    alloc: Global,
    write: &Write,
    owners: &[Owner],
    step: u64,
    session: Option<u64>,
    table: &mut LeaseTable,
) -> Result<FoundList, NoMemory>
    requires { is_proper write.now ≡ true }
    ensures found { IfOk result (λ found. found ≡ failed_found session step write.now owners.now table.old.entries) }
    ensures entries { OnOk result (table.new.entries ≡ found_entries session write.now owners.now table.old.entries) }
    ensures err { OnErr result (table.new.entries ≡ table.old.entries) }
{
    let others = other_owners(alloc, write, owners, table)?;
    let found = found_in(
        alloc,
        write,
        owners,
        others.as_slice(),
        session,
        step,
        table,
    )?;
    table.reserve(others.as_slice().len() as u64)?;
    keep_shown(write, owners, table);
    give_up_own(session, others, table);
    Ok(found)
}
