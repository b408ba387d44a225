ghost use Rattle.std.specs.Prelude.{◌≡◌, true, IfOk};
ghost use Rattle.std.specs.Option.{option_map};
ghost use Rattle.core_model.specs.DueJobs.{first_job, has_job};
ghost use Rattle.core_model.specs.Sending.{on_work};
ghost use Rattle.core_sends.specs.Sends.{sent_for, due_write};
ghost use Rattle.core_sends.specs.ToSend.{to_send};
ghost use Rattle.due_order.specs.Seen.{job_seen};
ghost use Rattle.watch_model.specs.Lookups.{numbered};
ghost use Rattle.core_machine.specs.Does.{Does};
ghost use Rattle.proxy_core.specs.Calls.{CanSend, IsWriteOf};

use crate::sending::send;
use core_machine::Machine;
use core_model::{Outcome, StepFault};
use core_sends::{DueJob, ToSend, first_job, has_job, to_send};
use etcd_types::NoMemory;
use wait_model::Due;

/// A worker asks what is due: the first due job is sent, where there is one.
#[tactic(auto, using(crate::proofs::Works::works))]
#[inline(never)]
pub(crate) fn on_work(machine: &mut Machine, now: u64) -> Result<Outcome, StepFault>
    requires { CanSend machine.old.core }
    ensures step { Does machine.old.core (on_work now machine.old.core) result machine.new.core }
    ensures ranges { machine.new.ranges ≡ machine.old.ranges }
{
    see_order(machine);
    match due(machine) {
        Ok(Some(due)) => send(machine, due, now),
        Ok(None) => Ok(Outcome::Job(None)),
        Err(NoMemory) => Err(StepFault::NoMemory),
    }
}

/// Whether a job is due. It takes no memory.
pub(crate) fn has_due(machine: &Machine) -> bool
    ensures { result ≡ has_job machine.now.core }
{
    has_job(
        &machine.seat,
        machine.reads.table(),
        machine.reads.waits().first_place(),
        machine.reads.acquires(),
        machine.reads.asks(),
        &machine.leasing,
        &machine.watches,
    )
}

/// For the prover: client streams are there by rising numbers.
fn see_order(machine: &Machine)
    ensures { numbered 0 machine.now.core.watches.given machine.now.core.watches.streams ≡ true }
{
    let _first = machine.watches.first_due();
}

/// What is to be sent for the first due job, with its request under the namespace.
fn due(machine: &Machine) -> Result<Option<ToSend>, NoMemory>
    ensures { IfOk result (λ send. send ≡ sent_for machine.now.core (due_write machine.now.core) (first_job machine.now.core)) }
{
    let Some(job) = job_of(machine) else {
        return Ok(None);
    };
    let write = write_of(machine, job)?;
    Ok(made_for(machine, &write, job)?)
}

/// What is to be sent for this job, where `write` is the writes' first due job if it is theirs.
fn made_for(
    machine: &Machine,
    write: &Option<Due>,
    job: DueJob<'_>,
) -> Result<Option<ToSend>, NoMemory>
    ensures { IfOk result (λ send. send
        ≡ to_send machine.now.core.settings.namespace machine.now.core.own.waits.prefix
        machine.now.core.settings.ttl write.now (job_seen job.entry)) }
{
    Ok(to_send(
        machine.alloc,
        &machine.namespace,
        machine.reads.prefix(),
        machine.ttl,
        write,
        job,
    )?)
}

fn job_of(machine: &Machine) -> Option<DueJob<'_>>
    ensures { option_map job_seen result ≡ first_job machine.now.core }
{
    first_job(
        &machine.seat,
        machine.reads.table(),
        machine.reads.waits().first_place(),
        machine.reads.acquires(),
        machine.reads.asks(),
        &machine.leasing,
        &machine.watches,
    )
}

/// The writes' first due job, where this one is theirs.
fn write_of(machine: &Machine, job: DueJob<'_>) -> Result<Option<Due>, NoMemory>
    ensures { IfOk result (λ write. IsWriteOf (job_seen job.entry) machine.now.core write) }
{
    match job {
        DueJob::Writes => Ok(machine.reads.first_write()?),
        _ => Ok(None),
    }
}
