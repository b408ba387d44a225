ghost use Rattle.std.specs.Prelude.{◌≡◌, IsTrue, true, if◌then◌else◌};
ghost use Rattle.std.specs.List.{list_all};
ghost use Rattle.etcd_types.specs.Ranges.{is_one};
ghost use Rattle.proxy_model.specs.Keyed.{at};
ghost use Rattle.proxy_model.specs.LeaseTable.{is_writing, change};
ghost use Rattle.wait_model.specs.Covers.{covered};
ghost use Rattle.wait_model.specs.Edits.{each};
ghost use Rattle.wait_model.specs.Fits.{is_proper};
ghost use Rattle.wait_model.specs.Phases.{if_written};
ghost use Rattle.wait_model.specs.Stages.{is_due};
ghost use Rattle.revoke_calls.specs.Fates.{after, fate_of, settled_entries, settled_at};

use crate::stages::{is_owner, is_writing};
use etcd_types::{Bytes, KeyRange};
use lease_table::LeaseTable;
use wait_model::{Sending, Write, WriteStage};

/// What becomes of an entry whose owner write is over without having been done.
#[derive(Clone, Copy)]
pub enum Fate {
    /// It is held again as it was, or leaves where it was marked.
    Back,
    /// It leaves.
    Left,
}

/// Where its call wasn't sent its entries are held again, and else they leave.
pub fn fate_of(stage: &WriteStage) -> Fate
    ensures { result ≡ fate_of stage.now }
{
    if is_due(stage) {
        Fate::Back
    } else {
        Fate::Left
    }
}

fn is_due(stage: &WriteStage) -> bool
    ensures { result ≡ is_due stage.now }
{
    matches!(
        stage,
        WriteStage::Sends {
            sending: Sending::Due { .. },
            ..
        }
    )
}

/// Settles the entries that the write's call is about. It takes no memory.
pub fn settle_owned(write: &Write, fate: Fate, table: &mut LeaseTable)
    requires { is_proper write.now ≡ true }
    ensures { table.new.entries ≡ settled_entries fate write.now table.old.entries }
{
    if is_owner(&write.stage) {
        settle_keys(write.ranges.as_slice(), fate, table);
    }
}

fn settle_keys(ranges: &[KeyRange], fate: Fate, table: &mut LeaseTable)
    requires { IsTrue (list_all is_one ranges.now) }
    ensures { table.new.entries ≡ each (λ k e. if covered ranges.now k then if_written true (after fate) e else e) table.old.entries }
{
    for range in ranges {
        settle_key(&range.key, fate, table);
    }
}

fn settle_key(key: &Bytes, fate: Fate, table: &mut LeaseTable)
    ensures { table.new.entries ≡ each (settled_at fate key.now) table.old.entries }
{
    // For the prover: the entries are in the order of their keys.
    let _count = table.len();
    if is_writing(table.find(key)) {
        set_fate(key, fate, table);
    }
}

fn set_fate(key: &Bytes, fate: Fate, table: &mut LeaseTable)
    requires { IsTrue (is_writing (at table.old.entries key.now)) }
    ensures { table.new ≡ change table.old key.now (after fate) }
{
    match fate {
        Fate::Back => table.unwrite(key),
        Fate::Left => table.leave(key),
    }
}
