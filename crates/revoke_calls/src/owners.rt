ghost use Rattle.std.specs.Prelude.{◌≡◌, ◌++◌, ◌∷◌, ◌≤◌, ◌+◌, ◌&&◌, [], Some, not, length, is_some, if◌then◌else◌, IfOk, OnOk};
ghost use Rattle.proxy_model.specs.Keyed.{at, with_at};
ghost use Rattle.wait_model.specs.Covers.{covered};
ghost use Rattle.wait_model.specs.ForeignOwnership.{by_key, found_of, is_own, owned_left};
ghost use Rattle.wait_model.specs.GuardedAnswers.{owns_at, is_kept, is_gone, other_owners, kept_entries};
ghost use Rattle.wait_model.specs.Phases.{own_entry};
ghost use Rattle.revoke_calls.specs.Ends.{found_in};

use crate::ends::is_shown;
use crate::stages::{is_owner, is_session, is_unknown, is_writing, own_entry};
use etcd_types::{Bytes, NoMemory};
use keyed_rows::Rows;
use lease_table::LeaseTable;
use proxy_model::Owner;
use std::alloc::Global;
use wait_model::{Asking, Found, FoundList, Write};

/// The owners that an answer showed and that aren't entries of the write, one for each key, in the order of the keys.
pub fn other_owners(
    alloc: Global,
    write: &Write,
    owners: &[Owner],
    table: &LeaseTable,
) -> Result<Rows<Owner>, NoMemory>
    ensures { IfOk result (λ others. others ≡ by_key [] (other_owners write.now table.now.entries owners.now)) }
{
    let mut others = Rows::new(alloc);
    for owner in owners {
        add_other(alloc, write, owners, owner, table, &mut others)?;
    }
    Ok(others)
}

fn add_other(
    alloc: Global,
    write: &Write,
    owners: &[Owner],
    owner: &Owner,
    table: &LeaseTable,
    others: &mut Rows<Owner>,
) -> Result<(), NoMemory>
    ensures { OnOk result (others.new
        ≡ (if not (is_kept write.now table.now.entries owners.now owner.now.key)
        then with_at others.old owner.now.key (Some owner.now) else others.old)) }
{
    if !is_kept(write, owners, &owner.key, table) {
        others.put(owner.key.copy(alloc)?, copy_owner(alloc, owner)?)?;
    }
    Ok(())
}

fn copy_owner(alloc: Global, owner: &Owner) -> Result<Owner, NoMemory>
    ensures { IfOk result (λ copy. copy ≡ owner.now) }
{
    Ok(Owner {
        key: owner.key.copy(alloc)?,
        lease: owner.lease,
        create: owner.create,
        revoked: owner.revoked,
    })
}

fn is_kept(write: &Write, owners: &[Owner], key: &Bytes, table: &LeaseTable) -> bool
    ensures { result ≡ is_kept write.now table.now.entries owners.now key.now }
{
    owns_at(write, key, table) && is_shown(owners, key, table)
}

/// Whether the key's entry is one that the write compared and that these owners don't show.
pub fn is_gone(write: &Write, owners: &[Owner], key: &Bytes, table: &LeaseTable) -> bool
    ensures { result ≡ is_gone write.now table.now.entries owners.now key.now }
{
    owns_at(write, key, table) && !is_shown(owners, key, table)
}

/// Whether the key's entry is one that the write's call compares.
pub fn owns_at(write: &Write, key: &Bytes, table: &LeaseTable) -> bool
    ensures { result ≡ owns_at write.now table.now.entries key.now }
{
    is_owner(&write.stage) && covers(write, key) && is_writing(table.find(key))
}

fn covers(write: &Write, key: &Bytes) -> bool
    ensures { result ≡ covered write.now.ranges key.now }
{
    write
        .ranges
        .as_slice()
        .iter()
        .any(|range| range.contains(key))
}

/// What the write waits for once the entries that these owners don't show are gone: all others but those that this proxy owns
/// itself and didn't know of.
pub fn found_in(
    alloc: Global,
    write: &Write,
    owners: &[Owner],
    others: &[(Bytes, Owner)],
    session: Option<u64>,
    step: u64,
    table: &LeaseTable,
) -> Result<FoundList, NoMemory>
    ensures { IfOk result (λ found. found ≡ found_in session step (kept_entries write.now owners.now table.now.entries) others.now) }
{
    let mut found = FoundList::new(alloc);
    for row in others {
        let own = is_own(write, owners, row, session, table);
        add_found(alloc, own, row, step, &mut found)?;
    }
    Ok(found)
}

/// Whether it is one of this proxy that it won't know of then.
fn is_own(
    write: &Write,
    owners: &[Owner],
    row: &(Bytes, Owner),
    session: Option<u64>,
    table: &LeaseTable,
) -> bool
    ensures { result ≡ is_own session (kept_entries write.now owners.now table.now.entries) row.now }
{
    is_session(session, row.1.lease) && !stays(write, owners, &row.0, table)
}

/// Whether the key will have an entry then.
fn stays(write: &Write, owners: &[Owner], key: &Bytes, table: &LeaseTable) -> bool
    ensures { result ≡ is_some (at (kept_entries write.now owners.now table.now.entries) key.now) }
{
    table.find(key).is_some() && !is_gone(write, owners, key, table)
}

fn add_found(
    alloc: Global,
    own: bool,
    row: &(Bytes, Owner),
    step: u64,
    found: &mut FoundList,
) -> Result<(), NoMemory>
    ensures { OnOk result (found.new ≡ found.old ++ (if own then [] else found_of step row.now ∷ [])) }
{
    if !own {
        found.push(Found {
            key: row.0.copy(alloc)?,
            create: row.1.create,
            gone: false,
            revoke: Asking::Due { since: step },
        })?;
    }
    Ok(())
}

/// Gives up those that this proxy owns itself and didn't know of, in the room that was made. It takes no memory.
pub fn give_up_own(session: Option<u64>, others: Rows<Owner>, table: &mut LeaseTable)
    requires room { length others ≤ table.old.spare }
    ensures { table.new.entries ≡ owned_left session others table.old.entries }
{
    for row in others.into_vec() {
        give_up_one(session, row, table);
    }
}

fn give_up_one(session: Option<u64>, row: (Bytes, Owner), table: &mut LeaseTable)
    requires room { 1 ≤ table.old.spare }
    ensures entries { table.new.entries ≡ (if is_own session table.old.entries row then with_at table.old.entries row.0 (Some (own_entry row.1.create)) else table.old.entries) }
    ensures room { table.old.spare ≤ table.new.spare + 1 }
{
    if is_unknown(session, row.1.lease, table.find(&row.0)) {
        table.hold(row.0, own_entry(row.1.create));
    }
}
