ghost use Rattle.std.specs.Prelude.{◌≡◌, true, Some};
ghost use Rattle.std.specs.Option.{option_map};
ghost use Rattle.lease_txn.specs.Results.{Reads};
ghost use Rattle.proxy_model.specs.Guarded.{written};
ghost use Rattle.wait_model.specs.Fits.{is_proper, are_proper};
ghost use Rattle.wait_model.specs.Writes.{first_by, sends, asks, job_of};
ghost use Rattle.revoke_core.specs.Answers.{guard_told};
ghost use Rattle.revoke_core.specs.Readings.{rescind_read, revoke_read, asked_read, write_read, done_read, job_read};
ghost use Rattle.revoke_core.specs.declared.answers.ReadAnswer.TheVariants.{Rescinded};

use crate::places::{By, place_of, place_of_call};
use etcd_types::{Answer, Bytes, List, Refusal, Reply};
use lease_table::LeaseTable;
use lease_txn::{NotShape, Written, read_guard, read_write};
use proxy_model::Owner;
use revoke_calls::{Lefts, lefts_of};
use std::alloc::Global;
use wait_model::{WaitCall, WaitJob, Write};

/// What an answer says to the call of a waiting write or of a key that is given up.
#[derive(Debug, Drop)]
pub enum ReadAnswer {
    /// The call isn't out, or what it was for is no more.
    Nothing,
    /// The ownership key of this create revision is gone, or the key was another's already.
    Rescinded { key: Bytes, create: u64 },
    /// The owner was asked to give its key up, where it `held` it still.
    Asked { held: bool },
    /// The owner couldn't be asked.
    AskRefused { refusal: Refusal },
    /// The write was refused.
    Refused { refusal: Refusal },
    /// The write was done: what its client is told, and what it left at the keys whose entries it compared.
    Wrote { reply: Reply, lefts: Lefts },
    /// The write failed, and these owners were shown.
    Blocked { owners: List<Owner> },
}

/// What the answer says to the call of this number. `Shape` comes exactly where it can't be one to the call.
pub(crate) fn read_call(
    alloc: Global,
    prefix: &Bytes,
    call: u64,
    answer: Answer,
    writes: &[Write],
    out: &[WaitCall],
    table: &LeaseTable,
) -> Result<ReadAnswer, NotShape>
    requires { are_proper writes.now ≡ true }
    ensures { Reads result (job_read prefix.now call answer (job_of call out.now) writes.now table.now.entries) }
{
    match place_of_call(out, call) {
        None => Ok(ReadAnswer::Nothing),
        Some(at) => read_job(alloc, prefix, &out[at].job, call, answer, writes, table),
    }
}

fn read_job(
    alloc: Global,
    prefix: &Bytes,
    job: &WaitJob,
    call: u64,
    answer: Answer,
    writes: &[Write],
    table: &LeaseTable,
) -> Result<ReadAnswer, NotShape>
    requires { are_proper writes.now ≡ true }
    ensures { Reads result (job_read prefix.now call answer (Some job.now) writes.now table.now.entries) }
{
    match job {
        WaitJob::Rescind { key, create } => read_rescind(alloc, key, *create, &answer),
        WaitJob::Revoke { .. } => read_revoke(call, answer, writes),
        WaitJob::Write => read_own(alloc, prefix, call, answer, writes, table),
    }
}

/// Any answer to a rescind says that the ownership key of this create revision is gone.
fn read_rescind(
    alloc: Global,
    key: &Bytes,
    create: u64,
    answer: &Answer,
) -> Result<ReadAnswer, NotShape>
    ensures { Reads result (option_map (λ held. Rescinded key.now create) (guard_told answer.now)) }
{
    match read_told(answer) {
        Err(fault) => Err(fault),
        Ok(_) => {
            let key = key.copy(alloc)?;
            Ok(ReadAnswer::Rescinded { key, create })
        }
    }
}

/// Whether the guard of the call held; of one that was refused it didn't.
fn read_told(answer: &Answer) -> Result<bool, NotShape>
    ensures { Reads result (guard_told answer.now) }
{
    match answer {
        Answer::Done(reply) => read_guard(reply),
        Answer::Refused(_) => Ok(false),
    }
}

/// What the answer to a revoke call says, where a write asks by it.
fn read_revoke(call: u64, answer: Answer, writes: &[Write]) -> Result<ReadAnswer, NotShape>
    ensures { Reads result (revoke_read answer (first_by (asks call) writes.now)) }
{
    match place_of(writes, By::Asks(call)) {
        None => Ok(ReadAnswer::Nothing),
        Some(_) => read_asked(answer),
    }
}

fn read_asked(answer: Answer) -> Result<ReadAnswer, NotShape>
    ensures { Reads result (asked_read answer) }
{
    match answer {
        Answer::Done(reply) => match read_guard(&reply) {
            Err(fault) => Err(fault),
            Ok(held) => Ok(ReadAnswer::Asked { held }),
        },
        Answer::Refused(refusal) => Ok(ReadAnswer::AskRefused { refusal }),
    }
}

/// What the answer to a write's own call says, where there is such a write.
fn read_own(
    alloc: Global,
    prefix: &Bytes,
    call: u64,
    answer: Answer,
    writes: &[Write],
    table: &LeaseTable,
) -> Result<ReadAnswer, NotShape>
    requires { are_proper writes.now ≡ true }
    ensures { Reads result (write_read prefix.now answer table.now.entries (first_by (sends call) writes.now)) }
{
    match place_of(writes, By::Sends(call)) {
        None => Ok(ReadAnswer::Nothing),
        Some(at) => match answer {
            Answer::Done(reply) => read_done(alloc, prefix, &writes[at], reply, table),
            Answer::Refused(refusal) => Ok(ReadAnswer::Refused { refusal }),
        },
    }
}

/// What the reply to a write says: it was done, or it failed.
fn read_done(
    alloc: Global,
    prefix: &Bytes,
    write: &Write,
    reply: Reply,
    table: &LeaseTable,
) -> Result<ReadAnswer, NotShape>
    requires { is_proper write.now ≡ true }
    ensures { Reads result (option_map (done_read write.now table.now.entries) (written prefix.now write.now.request reply)) }
{
    match read_write(alloc, prefix, &write.request, reply) {
        Err(fault) => Err(fault),
        Ok(Written::Wrote(reply)) => {
            let lefts = lefts_of(alloc, write, &reply, table)?;
            Ok(ReadAnswer::Wrote { reply, lefts })
        }
        Ok(Written::Blocked(owners)) => Ok(ReadAnswer::Blocked { owners }),
    }
}
