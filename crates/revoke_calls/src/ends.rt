ghost use Rattle.std.specs.Prelude.{◌≡◌, ◌≤◌, ◌&&◌, true};
ghost use Rattle.etcd_types.specs.Keys.{same};
ghost use Rattle.proxy_model.specs.Keyed.{at, with_at};
ghost use Rattle.wait_model.specs.Edits.{without};
ghost use Rattle.wait_model.specs.Fits.{is_proper};
ghost use Rattle.wait_model.specs.GuardedAnswers.{owns_at, kept_entries};
ghost use Rattle.wait_model.specs.Phases.{is_of};
ghost use Rattle.revoke_calls.specs.Ends.{turned, dropped_turn, kept_turn, wrote_turn, all_wrote, is_shown_by};

use crate::left::{Left, Lefts};
use crate::stages::{is_of, is_owner, is_writing};
use etcd_types::{Bytes, KeyRange};
use lease_table::LeaseTable;
use proxy_model::Owner;
use wait_model::Write;

/// The entries that are being written take what was left at their keys: they are held again, or given up where they were marked.
pub fn take_lefts(lefts: Lefts, table: &mut LeaseTable)
    ensures { table.new.entries ≡ all_wrote lefts table.old.entries }
{
    for left in lefts.into_vec() {
        take_left(left, table);
    }
}

fn take_left(left: Left, table: &mut LeaseTable)
    ensures { table.new.entries ≡ with_at table.old.entries left.key (wrote_turn left.kv (at table.old.entries left.key)) }
{
    let Left { key, kv } = left;
    // For the prover: the entries are in the order of their keys.
    let _count = table.len();
    if !is_writing(table.find(&key)) {
        return;
    }
    table.wrote(&key, kv);
}

/// The entries that the write compared are gone. It takes no memory.
pub fn drop_owned(write: &Write, table: &mut LeaseTable)
    requires { is_proper write.now ≡ true }
    ensures { table.new.entries ≡ without (owns_at write.now table.old.entries) table.old.entries }
{
    // For the prover: the entries are in the order of their keys.
    let _count = table.len();
    if is_owner(&write.stage) {
        drop_keys(write.ranges.as_slice(), table);
    }
}

fn drop_keys(ranges: &[KeyRange], table: &mut LeaseTable)
    ensures { table.new.entries ≡ turned dropped_turn ranges.now table.old.entries }
{
    for range in ranges {
        drop_key(&range.key, table);
    }
}

fn drop_key(key: &Bytes, table: &mut LeaseTable)
    ensures { table.new.entries ≡ with_at table.old.entries key.now (dropped_turn key.now (at table.old.entries key.now)) }
{
    // For the prover: the entries are in the order of their keys.
    let _count = table.len();
    if is_writing(table.find(key)) {
        table.remove(key);
    }
}

/// Of the entries that the write compared, those that these owners show are held again as they were, and the others are gone. It
/// takes no memory.
pub fn keep_shown(write: &Write, owners: &[Owner], table: &mut LeaseTable)
    requires { is_proper write.now ≡ true }
    ensures entries { table.new.entries ≡ kept_entries write.now owners.now table.old.entries }
    ensures room { table.old.spare ≤ table.new.spare }
{
    // For the prover: the entries are in the order of their keys.
    let _count = table.len();
    if is_owner(&write.stage) {
        keep_keys(write.ranges.as_slice(), owners, table);
    }
}

fn keep_keys(ranges: &[KeyRange], owners: &[Owner], table: &mut LeaseTable)
    ensures entries { table.new.entries ≡ turned (kept_turn owners.now) ranges.now table.old.entries }
    ensures room { table.old.spare ≤ table.new.spare }
{
    for range in ranges {
        keep_key(&range.key, owners, table);
    }
}

fn keep_key(key: &Bytes, owners: &[Owner], table: &mut LeaseTable)
    ensures entries { table.new.entries ≡ with_at table.old.entries key.now (kept_turn owners.now key.now (at table.old.entries key.now)) }
    ensures room { table.old.spare ≤ table.new.spare }
{
    // For the prover: the entries are in the order of their keys.
    let _count = table.len();
    if is_writing(table.find(key)) {
        if is_shown(owners, key, table) {
            table.unwrite(key);
        } else {
            table.remove(key);
        }
    }
}

/// Whether one of these owners is the key's entry.
pub(crate) fn is_shown(owners: &[Owner], key: &Bytes, table: &LeaseTable) -> bool
    ensures { result ≡ is_shown_by owners.now key.now (at table.now.entries key.now) }
{
    owners.iter().any(|owner| shows(owner, key, table))
}

fn shows(owner: &Owner, key: &Bytes, table: &LeaseTable) -> bool
    ensures { result ≡ (same owner.now.key key.now && is_of owner.now.create (at table.now.entries key.now)) }
{
    owner.key == *key && is_of(table.find(key), owner.create)
}
