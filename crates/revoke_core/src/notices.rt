ghost use Rattle.std.specs.Prelude.{◌≡◌, ◌≤◌, ◌+◌, length};
ghost use Rattle.std.specs.Option.{option_copied};
ghost use Rattle.revoke_core.specs.Told.{told_one, told_all, revoked_spoiled, revoked_entry, revoked_entries, deleted_entries, is_older};

use crate::gone::lose;
use etcd_types::Bytes;
use keyed_rows::Rows;
use lease_table::{Entry, LeaseTable};
use revoke_calls::{Notice, is_held, is_of, is_unknown, is_writing, own_entry};
use wait_model::Write;

/// Takes the notices of a message in order, in the room that was made for them.
pub(crate) fn take_all(
    notices: Vec<Notice>,
    session: Option<u64>,
    writes: &mut Vec<Write>,
    spoiled: &mut Rows<bool>,
    table: &mut LeaseTable,
)
    requires room { length notices.items ≤ table.old.spare }
    ensures entries { table.new.entries ≡ (told_all session notices.items (record { entries = table.old.entries; spoiled = spoiled.old; writes = writes.old.items })).entries }
    ensures spoiled { spoiled.new ≡ (told_all session notices.items (record { entries = table.old.entries; spoiled = spoiled.old; writes = writes.old.items })).spoiled }
    ensures writes { writes.new.items ≡ (told_all session notices.items (record { entries = table.old.entries; spoiled = spoiled.old; writes = writes.old.items })).writes }
{
    for notice in notices {
        take_one(notice, session, writes, spoiled, table);
    }
}

fn take_one(
    notice: Notice,
    session: Option<u64>,
    writes: &mut Vec<Write>,
    spoiled: &mut Rows<bool>,
    table: &mut LeaseTable,
)
    requires room { 1 ≤ table.old.spare }
    ensures entries { table.new.entries ≡ (told_one session notice (record { entries = table.old.entries; spoiled = spoiled.old; writes = writes.old.items })).entries }
    ensures spoiled { spoiled.new ≡ (told_one session notice (record { entries = table.old.entries; spoiled = spoiled.old; writes = writes.old.items })).spoiled }
    ensures writes { writes.new.items ≡ (told_one session notice (record { entries = table.old.entries; spoiled = spoiled.old; writes = writes.old.items })).writes }
    ensures room { table.old.spare ≤ table.new.spare + 1 }
{
    match notice {
        Notice::Revoked { key, create, lease } => {
            take_revoked(session, key, create, lease, spoiled, table);
        }
        Notice::Deleted { key, revision } => {
            take_deleted(&key, revision, table);
            lose(writes, &key);
        }
    }
}

/// This proxy is asked to give the key up: an acquire of it is spoiled, or else an entry leaves.
fn take_revoked(
    session: Option<u64>,
    key: Bytes,
    create: u64,
    lease: u64,
    spoiled: &mut Rows<bool>,
    table: &mut LeaseTable,
)
    requires room { 1 ≤ table.old.spare }
    ensures entries { table.new.entries ≡ revoked_entries session key create lease spoiled.old table.old.entries }
    ensures spoiled { spoiled.new ≡ revoked_spoiled key spoiled.old }
    ensures room { table.old.spare ≤ table.new.spare + 1 }
{
    if spoiled.find(&key).is_some() {
        spoiled.replace(&key, true);
    } else {
        revoke_entry(session, key, create, lease, table);
    }
}

fn revoke_entry(session: Option<u64>, key: Bytes, create: u64, lease: u64, table: &mut LeaseTable)
    requires room { 1 ≤ table.old.spare }
    ensures entries { table.new.entries ≡ revoked_entry session key create lease table.old.entries }
    ensures room { table.old.spare ≤ table.new.spare + 1 }
{
    // For the prover: the entries are in the order of their keys.
    let _count = table.len();
    if is_of(table.find(&key), create) {
        table.give_up(&key);
    } else if is_unknown(session, lease, table.find(&key)) {
        table.hold(key, own_entry(create));
    }
}

/// The ownership key of the key was deleted: a held entry that is older is gone, and one that is being written is marked.
fn take_deleted(key: &Bytes, revision: u64, table: &mut LeaseTable)
    ensures entries { table.new.entries ≡ deleted_entries key.now revision table.old.entries }
    ensures room { table.old.spare ≤ table.new.spare }
{
    // For the prover: the entries are in the order of their keys.
    let _count = table.len();
    if is_older(table.find(key), revision) {
        if is_held(table.find(key)) {
            table.remove(key);
        } else if is_writing(table.find(key)) {
            table.mark(key);
        }
    }
}

/// Whether there is an entry, created before this revision.
fn is_older(entry: Option<&Entry>, revision: u64) -> bool
    ensures { result ≡ is_older revision (option_copied entry.entry) }
{
    match entry {
        Some(entry) => entry.create < revision,
        None => false,
    }
}
