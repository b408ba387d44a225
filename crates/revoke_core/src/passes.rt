ghost use Rattle.std.specs.Prelude.{◌≡◌, ◌<◌, ◌&&◌, [], take, drop, length};
ghost use Rattle.std.specs.List.{list_any};
ghost use Rattle.wait_model.specs.Covers.{covers, shares};
ghost use Rattle.wait_model.specs.Passes.{passed};
ghost use Rattle.wait_model.specs.Stages.{is_waiting, stage_on};
ghost use Rattle.revoke_core.specs.Keeping.{StaysAlike};
ghost use Rattle.revoke_core.specs.Steps.{is_blocked};

use crate::turns::{covers, is_kept, shares, take_turn, waits_now};
use etcd_types::Bytes;
use keyed_rows::Rows;
use lease_table::LeaseTable;
use wait_model::Write;

/// One pass over the writes, in order of asking.
pub(crate) fn pass(
    writes: &mut Vec<Write>,
    spoiled: &mut Rows<bool>,
    table: &mut LeaseTable,
    step: u64,
)
    ensures writes { writes.new.items ≡ (passed step [] table.old.entries spoiled.old writes.old.items).writes }
    ensures spoiled { spoiled.new ≡ (passed step [] table.old.entries spoiled.old writes.old.items).spoiled }
    ensures entries { table.new.entries ≡ (passed step [] table.old.entries spoiled.old writes.old.items).entries }
{
    for at in 0..writes.len() {
        let still = stays(writes, at, spoiled, table);
        take_turn(&mut writes[at], still, spoiled, table, step);
    }
}

/// Whether the write at this place does nothing at its turn but to wait. What its own keys show is looked at first: so of the writes
/// that wait few look at all earlier ones.
fn stays(writes: &[Write], at: usize, spoiled: &Rows<bool>, table: &LeaseTable) -> bool
    requires { at < length writes.now }
    ensures { StaysAlike result writes.now at table.now.entries spoiled.now }
{
    if is_kept(&writes[at], spoiled, table) {
        return true;
    }
    is_blocked(writes, at)
}

/// Whether the write at this place waits for its turn and shares a key with an earlier one.
fn is_blocked(writes: &[Write], at: usize) -> bool
    requires { at < length writes.now }
    ensures { result ≡ is_blocked writes.now at }
{
    is_held_back(&writes[at], &writes[..at])
}

fn is_held_back(write: &Write, earlier: &[Write]) -> bool
    ensures { result ≡ (is_waiting (stage_on write.now.stage) && list_any (shares write.now) earlier.now) }
{
    waits_now(&write.stage) && shares_any(write, earlier)
}

pub(crate) fn shares_any(write: &Write, earlier: &[Write]) -> bool
    ensures { result ≡ list_any (shares write.now) earlier.now }
{
    earlier.iter().any(|other| shares(write, other))
}

/// Whether one of the writes covers the key.
pub(crate) fn is_covered(writes: &[Write], key: &Bytes) -> bool
    ensures { result ≡ list_any (λ w. covers w key.now) writes.now }
{
    writes.iter().any(|write| covers(write, key))
}
