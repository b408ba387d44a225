ghost use Rattle.std.specs.Prelude.{◌≡◌, map, true, false};
ghost use Rattle.etcd_types.specs.Keys.{same};
ghost use Rattle.wait_model.specs.ForeignOwnership.{write_gone, stage_gone};
ghost use Rattle.wait_model.specs.SessionEnd.{write_ended, stage_ended};

use etcd_types::Bytes;
use revoke_calls::{guest_since, is_single};
use wait_model::{Sending, Write, WriteStage};

/// What every write found is gone.
pub(crate) fn lose_all(writes: &mut Vec<Write>)
    ensures { writes.new.items ≡ map (write_gone (λ k. true)) writes.old.items }
{
    for write in writes.iter_mut() {
        lose_all_found(write);
    }
}

fn lose_all_found(write: &mut Write)
    ensures { write.new ≡ write_gone (λ k. true) write.old }
{
    lose_all_of(&mut write.stage);
}

fn lose_all_of(stage: &mut WriteStage)
    ensures { stage.new ≡ stage_gone (λ k. true) stage.old }
{
    match stage {
        WriteStage::Finds { found } => found.lose_all(),
        WriteStage::Waiting | WriteStage::Sends { .. } => {}
    }
}

/// What a write found of this key is gone.
pub(crate) fn lose(writes: &mut Vec<Write>, key: &Bytes)
    ensures { writes.new.items ≡ map (write_gone (same key.now)) writes.old.items }
{
    for write in writes.iter_mut() {
        lose_found(write, key);
    }
}

fn lose_found(write: &mut Write, key: &Bytes)
    ensures { write.new ≡ write_gone (same key.now) write.old }
{
    lose_of(&mut write.stage, key);
}

fn lose_of(stage: &mut WriteStage, key: &Bytes)
    ensures { stage.new ≡ stage_gone (same key.now) stage.old }
{
    match stage {
        WriteStage::Finds { found } => found.lose(key),
        WriteStage::Waiting | WriteStage::Sends { .. } => {}
    }
}

/// The session ended under each write.
pub(crate) fn end_all(writes: &mut Vec<Write>)
    ensures { writes.new.items ≡ map write_ended writes.old.items }
{
    for write in writes.iter_mut() {
        end(write);
    }
}

fn end(write: &mut Write)
    ensures { write.new ≡ write_ended write.old }
{
    let single = is_single(&write.request);
    end_stage(&mut write.stage, single);
}

fn end_stage(stage: &mut WriteStage, single: bool)
    ensures { stage.new ≡ stage_ended single stage.old }
{
    match stage {
        WriteStage::Sends {
            owner: true,
            sending: Sending::Due { since },
        } => {
            *stage = if single {
                guest_since(*since)
            } else {
                WriteStage::Waiting
            };
        }
        WriteStage::Waiting | WriteStage::Sends { .. } | WriteStage::Finds { .. } => {}
    }
}
