ghost use Rattle.std.specs.Prelude.{◌≡◌, ◌++◌, ◌∷◌, [], true, IfOk, OnOk, OnErr};
ghost use Rattle.std.specs.Option.{option_map};
ghost use Rattle.proxy_model.specs.LeaseTable.{change};
ghost use Rattle.wait_model.specs.DueOrder.{first_rescind};
ghost use Rattle.wait_model.specs.Fits.{is_proper, are_proper};
ghost use Rattle.wait_model.specs.Phases.{rescind_sent};
ghost use Rattle.wait_model.specs.Sent.{is_revoke, stage_revoking, stage_sent};
ghost use Rattle.wait_model.specs.Stages.{staged};
ghost use Rattle.revoke_calls.specs.Jobs.{rescind_due, revoke_due, write_due};
ghost use Rattle.revoke_core.specs.Sends.{out_call, due_of_call, job_of_call, stage_of_call, rescind_of, first_due, sent_due, sent_writes, sent_out};
ghost use Rattle.wait_model.specs.declared.wait.WaitJob.TheVariants.{Rescind};

use crate::places::{By, place_of};
use etcd_types::{Bytes, NoMemory};
use lease_table::LeaseTable;
use revoke_calls::{first_call, rescind_due, revoke_due, write_due};
use std::alloc::Global;
use wait_model::{Due, DueCall, JobKind, Sending, WaitCall, WaitJob, Write, WriteStage};

/// The key of the first rescind to be sent, and the create revision of its ownership key.
pub(crate) fn first_rescind(
    alloc: Global,
    table: &LeaseTable,
) -> Result<Option<(Bytes, u64)>, NoMemory>
    ensures { IfOk result (λ first. first ≡ option_map rescind_of (first_rescind table.now.entries)) }
{
    match table.first_rescind() {
        None => Ok(None),
        Some(row) => Ok(Some((row.0.copy(alloc)?, row.1.create))),
    }
}

/// Sends the rescind of this key and create revision. Where memory was wanting all is as before.
pub(crate) fn send_rescind(
    alloc: Global,
    prefix: &Bytes,
    out: &mut Vec<WaitCall>,
    call: u64,
    key: Bytes,
    create: u64,
    table: &mut LeaseTable,
) -> Result<Due, NoMemory>
    ensures due { IfOk result (λ due. due ≡ rescind_due prefix.now key create) }
    ensures out { OnOk result (out.new.items ≡ out.old.items ++ out_call call (Rescind key create) ∷ []) }
    ensures table { OnOk result (table.new ≡ change table.old key (rescind_sent true)) }
    ensures err_out { OnErr result (out.new.items ≡ out.old.items) }
    ensures err_table { OnErr result (table.new ≡ table.old) }
{
    let due = rescind_due(alloc, prefix, &key, create)?;
    let job = WaitJob::Rescind {
        key: key.copy(alloc)?,
        create,
    };
    out.push(WaitCall { call, job })?;
    table.rescind_sent(&key);
    Ok(due)
}

/// Sends the first due call of the writes. Where memory was wanting all is as before.
pub(crate) fn send_call(
    alloc: Global,
    prefix: &Bytes,
    writes: &mut Vec<Write>,
    out: &mut Vec<WaitCall>,
    call: u64,
    table: &LeaseTable,
) -> Result<Option<Due>, NoMemory>
    requires { are_proper writes.old.items ≡ true }
    ensures due { IfOk result (λ due. due ≡ sent_due prefix.now table.now.entries (first_due writes.old.items)) }
    ensures writes { OnOk result (writes.new.items ≡ sent_writes call (first_due writes.old.items) writes.old.items) }
    ensures out { OnOk result (out.new.items ≡ sent_out call (first_due writes.old.items) out.old.items) }
    ensures proper { are_proper writes.new.items ≡ true }
    ensures err_writes { OnErr result (writes.new.items ≡ writes.old.items) }
    ensures err_out { OnErr result (out.new.items ≡ out.old.items) }
{
    match first_call(alloc, writes)? {
        None => Ok(None),
        Some(first) => match place_of(writes, By::Ticket(first.place.number)) {
            None => Ok(None),
            Some(at) => {
                let due = send_of(alloc, prefix, &mut writes[at], first, out, call, table)?;
                Ok(Some(due))
            }
        },
    }
}

/// Sends this due call of the write.
fn send_of(
    alloc: Global,
    prefix: &Bytes,
    write: &mut Write,
    first: DueCall,
    out: &mut Vec<WaitCall>,
    call: u64,
    table: &LeaseTable,
) -> Result<Due, NoMemory>
    requires { is_proper write.old ≡ true }
    ensures due { IfOk result (λ due. due ≡ due_of_call prefix.now table.now.entries first write.old) }
    ensures write { OnOk result (write.new ≡ staged write.old (stage_of_call call first write.old.stage)) }
    ensures out { OnOk result (out.new.items ≡ out.old.items ++ out_call call (job_of_call first) ∷ []) }
    ensures proper { is_proper write.new ≡ true }
    ensures err_write { OnErr result (write.new ≡ write.old) }
    ensures err_out { OnErr result (out.new.items ≡ out.old.items) }
{
    let due = due_of_call(alloc, prefix, write, &first, table)?;
    let job = job_of_call(alloc, &first)?;
    out.push(WaitCall { call, job })?;
    send_from(&mut write.stage, &first, call);
    Ok(due)
}

/// What the first due call of the writes sends.
pub(crate) fn call_due(
    alloc: Global,
    prefix: &Bytes,
    writes: &[Write],
    table: &LeaseTable,
) -> Result<Option<Due>, NoMemory>
    requires { are_proper writes.now ≡ true }
    ensures { IfOk result (λ due. due ≡ sent_due prefix.now table.now.entries (first_due writes.now)) }
{
    match first_call(alloc, writes)? {
        None => Ok(None),
        Some(first) => match place_of(writes, By::Ticket(first.place.number)) {
            None => Ok(None),
            Some(at) => {
                let due = due_of_call(alloc, prefix, &writes[at], &first, table)?;
                Ok(Some(due))
            }
        },
    }
}

fn due_of_call(
    alloc: Global,
    prefix: &Bytes,
    write: &Write,
    first: &DueCall,
    table: &LeaseTable,
) -> Result<Due, NoMemory>
    requires { is_proper write.now ≡ true }
    ensures { IfOk result (λ due. due ≡ due_of_call prefix.now table.now.entries first.now write.now) }
{
    if is_revoke(first.place.kind) {
        Ok(revoke_due(alloc, prefix, write.ticket, first)?)
    } else {
        Ok(write_due(alloc, prefix, write, table)?)
    }
}

fn job_of_call(alloc: Global, first: &DueCall) -> Result<WaitJob, NoMemory>
    ensures { IfOk result (λ job. job ≡ job_of_call first.now) }
{
    if is_revoke(first.place.kind) {
        Ok(WaitJob::Revoke {
            key: first.key.copy(alloc)?,
        })
    } else {
        Ok(WaitJob::Write)
    }
}

fn is_revoke(kind: JobKind) -> bool
    ensures { result ≡ is_revoke kind }
{
    matches!(kind, JobKind::Revoke)
}

/// The write's stage once the call was sent.
fn send_from(stage: &mut WriteStage, first: &DueCall, call: u64)
    ensures { stage.new ≡ stage_of_call call first.now stage.old }
{
    if is_revoke(first.place.kind) {
        send_revoke(stage, &first.key, call);
    } else {
        send_own(stage, call);
    }
}

fn send_revoke(stage: &mut WriteStage, key: &Bytes, call: u64)
    ensures { stage.new ≡ stage_revoking call key.now stage.old }
{
    match stage {
        WriteStage::Finds { found } => found.send(call, key),
        WriteStage::Waiting | WriteStage::Sends { .. } => {}
    }
}

fn send_own(stage: &mut WriteStage, call: u64)
    ensures { stage.new ≡ stage_sent call stage.old }
{
    match stage {
        WriteStage::Sends { sending, .. } => *sending = Sending::Out { call },
        WriteStage::Waiting | WriteStage::Finds { .. } => {}
    }
}
