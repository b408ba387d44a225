ghost use Rattle.std.specs.Prelude.{◌≡◌, true, IfOk, OnOk, OnErr};
ghost use Rattle.etcd_types.specs.declared.answer.Answer.TheVariants.{Refused};
ghost use Rattle.wait_model.specs.Fits.{are_proper};
ghost use Rattle.wait_model.specs.ForeignOwnership.{stage_asked};
ghost use Rattle.wait_model.specs.Writes.{first_by, without_first, sends, asks};
ghost use Rattle.revoke_calls.specs.declared.entries.Fate.TheVariants.{Back};
ghost use Rattle.revoke_core.specs.Answers.{rescinded_entries, rescinded_quiet};
ghost use Rattle.revoke_core.specs.Readings.{replied, asked_writes, failed_writes, failed_if, read_writes, read_entries, read_quiet, read_settled};
ghost use Rattle.revoke_core.specs.Steps.{settled_if};

use crate::answers::ReadAnswer;
use crate::places::{By, place_of, take_write};
use etcd_types::{Answer, Bytes, NoMemory, Refusal};
use keyed_rows::Rows;
use lease_table::LeaseTable;
use proxy_model::Owner;
use revoke_calls::{Fate, fail, is_of, settle_owned, take_lefts};
use std::alloc::Global;
use wait_model::{Settled, Write, WriteStage};

/// How long a key rests once it was given up, in milliseconds.
const REST_MS: u64 = 2000;

/// When an answer is taken, and under which session.
#[derive(Clone, Copy)]
pub(crate) struct When {
    /// The number of the live session.
    pub(crate) session: Option<u64>,
    /// The clock's reading, in milliseconds.
    pub(crate) now: u64,
    /// What becomes due became due at this step.
    pub(crate) step: u64,
}

/// The call of this number is answered by what was read. Where memory was wanting all is as before.
pub(crate) fn take_read(
    alloc: Global,
    call: u64,
    read: ReadAnswer,
    when: When,
    writes: &mut Vec<Write>,
    quiet: &mut Rows<u64>,
    table: &mut LeaseTable,
) -> Result<Settled, NoMemory>
    requires { are_proper writes.old.items ≡ true }
    ensures writes { OnOk result (writes.new.items ≡ read_writes when.session when.step call read table.old.entries writes.old.items) }
    ensures entries { OnOk result (table.new.entries ≡ read_entries when.session read (first_by (sends call) writes.old.items) table.old.entries) }
    ensures quiet { OnOk result (quiet.new ≡ read_quiet when.now read table.old.entries quiet.old) }
    ensures settled { IfOk result (λ settled. settled ≡ read_settled call read writes.old.items) }
    ensures err_writes { OnErr result (writes.new.items ≡ writes.old.items) }
    ensures err_quiet { OnErr result (quiet.new ≡ quiet.old) }
    ensures err_entries { OnErr result (table.new.entries ≡ table.old.entries) }
{
    match read {
        ReadAnswer::Nothing => Ok(Settled::Nothing),
        ReadAnswer::Rescinded { key, create } => {
            end_entry(alloc, key, create, when.now, quiet, table)?;
            Ok(Settled::Nothing)
        }
        ReadAnswer::Asked { held } => {
            take_asked(writes, call, held);
            Ok(Settled::Nothing)
        }
        ReadAnswer::AskRefused { refusal } => {
            let write = take_write(writes, By::Asks(call));
            Ok(reply_to(write, Answer::Refused(refusal)))
        }
        ReadAnswer::Refused { refusal } => Ok(refuse(writes, call, refusal, table)),
        ReadAnswer::Wrote { reply, lefts } => {
            let write = take_write(writes, By::Sends(call));
            take_lefts(lefts, table);
            Ok(reply_to(write, Answer::Done(reply)))
        }
        ReadAnswer::Blocked { owners } => {
            fail_call(alloc, call, owners.as_slice(), when, writes, table)?;
            Ok(Settled::Nothing)
        }
    }
}

/// The client of the write that is over, where there is one, has this answer.
fn reply_to(write: Option<Write>, answer: Answer) -> Settled
    ensures { result ≡ replied answer write }
{
    match write {
        None => Settled::Nothing,
        Some(write) => Settled::Reply(write.ticket, answer),
    }
}

/// The entry of this create revision is gone, and its key rests; another one stays.
fn end_entry(
    alloc: Global,
    key: Bytes,
    create: u64,
    now: u64,
    quiet: &mut Rows<u64>,
    table: &mut LeaseTable,
) -> Result<(), NoMemory>
    ensures quiet { OnOk result (quiet.new ≡ rescinded_quiet key create now table.old.entries quiet.old) }
    ensures entries { OnOk result (table.new.entries ≡ rescinded_entries key create table.old.entries) }
    ensures err_quiet { OnErr result (quiet.new ≡ quiet.old) }
    ensures err_entries { OnErr result (table.new.entries ≡ table.old.entries) }
{
    if !is_of(table.find(&key), create) {
        return Ok(());
    }
    quiet.put(key.copy(alloc)?, now.saturating_add(REST_MS))?;
    table.remove(&key);
    Ok(())
}

/// The owner that was asked by this call was there still, or was gone.
fn take_asked(writes: &mut Vec<Write>, call: u64, held: bool)
    ensures { writes.new.items ≡ asked_writes call held (first_by (asks call) writes.old.items) writes.old.items }
{
    match place_of(writes, By::Asks(call)) {
        None => {}
        Some(at) => take_back(&mut writes[at].stage, call, held),
    }
}

fn take_back(stage: &mut WriteStage, call: u64, held: bool)
    ensures { stage.new ≡ stage_asked call held stage.old }
{
    match stage {
        WriteStage::Finds { found } => found.take_back(call, held),
        WriteStage::Waiting | WriteStage::Sends { .. } => {}
    }
}

/// The write of this call, where there is one, is over, and its entries are held again as they were.
fn refuse(writes: &mut Vec<Write>, call: u64, refusal: Refusal, table: &mut LeaseTable) -> Settled
    requires { are_proper writes.old.items ≡ true }
    ensures writes { writes.new.items ≡ without_first (sends call) writes.old.items }
    ensures entries { table.new.entries ≡ settled_if Back (first_by (sends call) writes.old.items) table.old.entries }
    ensures settled { result ≡ replied (Refused refusal) (first_by (sends call) writes.old.items) }
{
    match take_write(writes, By::Sends(call)) {
        None => Settled::Nothing,
        Some(write) => {
            settle_owned(&write, Fate::Back, table);
            Settled::Reply(write.ticket, Answer::Refused(refusal))
        }
    }
}

/// The write of this call failed, and goes on by the owners that were shown. Where memory was wanting all is as before.
fn fail_call(
    alloc: Global,
    call: u64,
    owners: &[Owner],
    when: When,
    writes: &mut Vec<Write>,
    table: &mut LeaseTable,
) -> Result<(), NoMemory>
    requires { are_proper writes.old.items ≡ true }
    ensures writes { OnOk result (writes.new.items
        ≡ failed_writes when.session when.step call owners.now table.old.entries
        (first_by (sends call) writes.old.items) writes.old.items) }
    ensures entries { OnOk result (table.new.entries ≡ failed_if when.session owners.now (first_by (sends call) writes.old.items) table.old.entries) }
    ensures err_writes { OnErr result (writes.new.items ≡ writes.old.items) }
    ensures err_entries { OnErr result (table.new.entries ≡ table.old.entries) }
{
    match place_of(writes, By::Sends(call)) {
        None => Ok(()),
        Some(at) => {
            let stage = fail(alloc, &writes[at], owners, when.step, when.session, table)?;
            writes[at].stage = stage;
            Ok(())
        }
    }
}
