ghost use Rattle.std.specs.Prelude.{◌≡◌, ◌<◌, IfOk, OnOk, OnErr};
ghost use Rattle.core_model.specs.Sending.{next_call};
ghost use Rattle.core_machine.specs.Keeping.{on};
ghost use Rattle.proxy_core.specs.Calls.{CanSend, with_call, without_last, called, began};

use core_machine::Machine;
use core_model::{Job, OutCall, OutJob, Outcome};
use etcd_types::{NoMemory, Request};

/// A call for this is out now, under the next number, which is given. Where memory was wanting all is as before.
pub(crate) fn put_out(machine: &mut Machine, job: OutJob, now: u64) -> Result<u64, NoMemory>
    requires { CanSend machine.old.core }
    ensures number { IfOk result (λ call. call ≡ next_call machine.old.core) }
    ensures ok { OnOk result (machine.new ≡ on machine.old (with_call now job machine.old.core)) }
    ensures err { OnErr result (machine.new ≡ machine.old) }
{
    let call = machine.calls + 1;
    machine.out.push(OutCall {
        call,
        job,
        member: machine.members.pick(),
        seen: machine.members.seen(),
        sent_at: now,
    })?;
    machine.calls = call;
    Ok(call)
}

/// The call that was put out last isn't. It takes no memory.
pub(crate) fn take_back(machine: &mut Machine)
    requires { 0 < machine.old.core.calls }
    ensures { machine.new ≡ on machine.old (without_last machine.old.core) }
{
    drop(machine.out.remove(machine.calls));
    machine.calls -= 1;
}

/// The call to the current member that is to be made.
pub(crate) fn called(machine: &Machine, call: u64, ticket: u64, request: Request) -> Outcome
    ensures { result ≡ called call ticket request machine.now.core }
{
    Outcome::Job(Some(Job::Call {
        call,
        member: machine.members.pick(),
        ticket,
        request,
    }))
}

/// The opening at the current member that is to be made.
pub(crate) fn began(machine: &Machine, stream: u64, request: Request) -> Outcome
    ensures { result ≡ began stream request machine.now.core }
{
    Outcome::Job(Some(Job::Begin {
        stream,
        member: machine.members.pick(),
        request,
    }))
}
