ghost use Rattle.std.specs.Prelude.{◌≡◌, ℕ, OnOk, OnErr};
ghost use Rattle.core_model.specs.Stepped.{gives};
ghost use Rattle.core_sends.specs.declared.sendings.ToSend.TheVariants as send;
ghost use Rattle.core_sends.specs.Sends.{send_one, own_after};
ghost use Rattle.core_machine.specs.Does.{Does};
ghost use Rattle.core_machine.specs.Keeping.{on};
ghost use Rattle.proxy_core.specs.Calls.{CanSend};

use crate::calls::{began, called, put_out, take_back};
use core_machine::Machine;
use core_model::{CallKind, Job, OutJob, Outcome, StepFault};
use core_parts::{send_opening, send_session};
use core_sends::ToSend;
use etcd_types::{Bytes, NoMemory, Request};

/// This is sent. Where memory was wanting all is as before.
pub(crate) fn send(machine: &mut Machine, send: ToSend, now: u64) -> Result<Outcome, StepFault>
    requires { CanSend machine.old.core }
    ensures step { Does machine.old.core (send_one now send machine.old.core) result machine.new.core }
    ensures ranges { machine.new.ranges ≡ machine.old.ranges }
{
    match send {
        ToSend::Session { out, request } => send_keep(machine, out, request, now),
        ToSend::Write { ticket, request } => send_write(machine, ticket, request, now),
        ToSend::Acquire {
            key,
            ticket,
            request,
        } => send_acquire(machine, key, ticket, request, now),
        ToSend::Ask {
            ticket,
            kind,
            request,
        } => send_ask(machine, ticket, kind, request, now),
        ToSend::Group { lease, ticket } => send_group(machine, lease, ticket, now),
        ToSend::Open { stream, request } => Ok(open_leasing(machine, stream, request)),
        ToSend::Begin { stream, request } => begin_stream(machine, stream, request),
        ToSend::Close { stream } => close_stream(machine, stream),
    }
}

/// The session's grant or keepalive.
fn send_keep(
    machine: &mut Machine,
    out: OutJob,
    request: Request,
    now: u64,
) -> Result<Outcome, StepFault>
    requires { CanSend machine.old.core }
    ensures step { Does machine.old.core (send_one now (send.Session out request) machine.old.core) result machine.new.core }
    ensures ranges { machine.new.ranges ≡ machine.old.ranges }
{
    let Ok(call) = put_out(machine, out, now) else {
        return Err(StepFault::NoMemory);
    };
    send_session(&mut machine.seat, call);
    Ok(called(machine, call, 0, request))
}

/// A rescind, a call that asks an owner, or a write's own.
fn send_write(
    machine: &mut Machine,
    ticket: u64,
    request: Request,
    now: u64,
) -> Result<Outcome, StepFault>
    requires { CanSend machine.old.core }
    ensures step { Does machine.old.core (send_one now (send.Write ticket request) machine.old.core) result machine.new.core }
    ensures ranges { machine.new.ranges ≡ machine.old.ranges }
{
    let Ok(call) = put_out(machine, OutJob::Wait, now) else {
        return Err(StepFault::NoMemory);
    };
    match send_first(machine, call) {
        Ok(()) => Ok(called(machine, call, ticket, request)),
        Err(NoMemory) => {
            take_back(machine);
            Err(StepFault::NoMemory)
        }
    }
}

/// The first due rescind, call that asks an owner, or write's own call is out under this number. Where memory was wanting all is
/// as before.
fn send_first(machine: &mut Machine, call: u64) -> Result<(), NoMemory>
    ensures ok { OnOk result (machine.new ≡ on machine.old (record machine.old.core { own = own_after call machine.old.core.own })) }
    ensures err { OnErr result (machine.new ≡ machine.old) }
{
    machine.reads.send_write(call)?;
    Ok(())
}

fn send_acquire(
    machine: &mut Machine,
    key: Bytes,
    ticket: u64,
    request: Request,
    now: u64,
) -> Result<Outcome, StepFault>
    requires { CanSend machine.old.core }
    ensures step { Does machine.old.core (send_one now (send.Acquire key ticket request) machine.old.core) result machine.new.core }
    ensures ranges { machine.new.ranges ≡ machine.old.ranges }
{
    let Ok(of) = key.copy(machine.alloc) else {
        return Err(StepFault::NoMemory);
    };
    let Ok(call) = put_out(machine, OutJob::Acquire { key: of }, now) else {
        return Err(StepFault::NoMemory);
    };
    machine.reads.send_acquire(call, &key);
    Ok(called(machine, call, ticket, request))
}

/// A client's own call.
fn send_ask(
    machine: &mut Machine,
    ticket: u64,
    kind: CallKind,
    request: Request,
    now: u64,
) -> Result<Outcome, StepFault>
    requires { CanSend machine.old.core }
    ensures step { Does machine.old.core (send_one now (send.Ask ticket kind request) machine.old.core) result machine.new.core }
    ensures ranges { machine.new.ranges ≡ machine.old.ranges }
{
    let Ok(call) = put_out(machine, OutJob::Ask { kind }, now) else {
        return Err(StepFault::NoMemory);
    };
    machine.reads.send_ask(call, ticket);
    Ok(called(machine, call, ticket, request))
}

/// The keepalive that clients of this lease share.
fn send_group(
    machine: &mut Machine,
    lease: u64,
    ticket: u64,
    now: u64,
) -> Result<Outcome, StepFault>
    requires { CanSend machine.old.core }
    ensures step { Does machine.old.core (send_one now (send.Group lease ticket) machine.old.core) result machine.new.core }
    ensures ranges { machine.new.ranges ≡ machine.old.ranges }
{
    let Ok(call) = put_out(machine, OutJob::Group { lease }, now) else {
        return Err(StepFault::NoMemory);
    };
    machine.reads.send_keepalives(call, lease);
    Ok(called(machine, call, ticket, Request::KeepAlive { lease }))
}

/// The leasing stream is opened. It takes no memory.
fn open_leasing(machine: &mut Machine, stream: u64, request: Request) -> Outcome
    ensures step { (now : ℕ) → send_one now (send.Open stream request) machine.old.core ≡ gives machine.new.core result }
    ensures ranges { machine.new.ranges ≡ machine.old.ranges }
{
    send_opening(&mut machine.leasing);
    began(machine, stream, request)
}

fn begin_stream(machine: &mut Machine, stream: u64, request: Request) -> Result<Outcome, StepFault>
    ensures step { (now : ℕ) → Does machine.old.core (send_one now (send.Begin stream request) machine.old.core) result machine.new.core }
    ensures ranges { machine.new.ranges ≡ machine.old.ranges }
{
    match machine.watches.next_job() {
        Ok(_) => Ok(began(machine, stream, request)),
        Err(NoMemory) => Err(StepFault::NoMemory),
    }
}

fn close_stream(machine: &mut Machine, stream: u64) -> Result<Outcome, StepFault>
    ensures step { (now : ℕ) → Does machine.old.core (send_one now (send.Close stream) machine.old.core) result machine.new.core }
    ensures ranges { machine.new.ranges ≡ machine.old.ranges }
{
    match machine.watches.next_job() {
        Ok(_) => Ok(Outcome::Job(Some(Job::Close { stream }))),
        Err(NoMemory) => Err(StepFault::NoMemory),
    }
}
