ghost use Rattle.std.specs.Prelude.{◌≡◌, ◌<◌, ◌^◌, true, None, IfOk, OnErr};
ghost use Rattle.proxy_model.specs.Prefixes.{leasing_range};
ghost use Rattle.watch_model.specs.Lookups.{watch_at};
ghost use Rattle.core_model.specs.Asking.{on_ask, asked_at, request_asked, taken_in, leased_ask, read_is_asked, write_is_asked, call_is_asked};
ghost use Rattle.core_model.specs.Asking.{answered_or_called, held_body, if_live, is_leased_read};
ghost use Rattle.core_model.specs.Kinds.{writes_keys};
ghost use Rattle.core_model.specs.Lookups.{ask_at, live_number, moment, reads_of, with_reads};
ghost use Rattle.core_model.specs.Verdicts.{reply_of};
ghost use Rattle.core_model.specs.Watching.{watch_is_asked};
ghost use Rattle.read_model.specs.PlainRead.{decided_ask};
ghost use Rattle.read_model.specs.State.{ground_of};
ghost use Rattle.read_steps.specs.Steps.{at_once, after_read};
ghost use Rattle.core_machine.specs.Does.{Does};
ghost use Rattle.core_machine.specs.Keeping.{on};

use call_kinds::{reply_of, text_of};
use core_asks::{asked_at, call_stage, held_body, is_leased_read, refusal_of, writes_keys};
use core_machine::Machine;
use core_model::{Outcome, StepFault};
use core_parts::live_number;
use etcd_types::{Answer, Body, NoMemory, Reply, Request, WatchAsk};
use read_steps::{Asked, Verdict};
use std::alloc::Global;

/// A client asks, with a ticket of its own and a drawn word.
#[tactic(auto, unfolding(core_model::specs::Asking::on_ask))]
#[inline(never)]
pub(crate) fn on_ask(
    machine: &mut Machine,
    ticket: u64,
    request: Request,
    word: u64,
    now: u64,
) -> Result<Outcome, StepFault>
    requires given { machine.old.core.watches.given < 2 ^ 63 }
    requires leasing { machine.old.ranges.leasing ≡ leasing_range machine.old.core.own.waits.prefix }
    ensures step { Does machine.old.core (on_ask now ticket request word machine.old.core) result machine.new.core }
    ensures ranges { machine.new.ranges ≡ machine.old.ranges }
{
    if machine.knows(ticket) {
        return Err(StepFault::TicketUsed(ticket));
    }
    let refusal = refusal_of(
        machine.alloc,
        machine.reads.prefix(),
        &machine.range,
        &request,
    );
    match refusal {
        Ok(Some(refusal)) => Ok(Outcome::Replied(Answer::Refused(refusal))),
        Ok(None) => take_in(machine, ticket, request, word, now),
        Err(NoMemory) => Err(StepFault::NoMemory),
    }
}

/// A request that isn't refused.
fn take_in(
    machine: &mut Machine,
    ticket: u64,
    request: Request,
    word: u64,
    now: u64,
) -> Result<Outcome, StepFault>
    requires given { machine.old.core.watches.given < 2 ^ 63 }
    requires leasing { machine.old.ranges.leasing ≡ leasing_range machine.old.core.own.waits.prefix }
    requires unknown { ask_at ticket machine.old.core.asks ≡ None }
    requires no_watch { watch_at ticket machine.old.core.watches.watches ≡ None }
    ensures step { Does machine.old.core (request_asked request (moment machine.old.core now) (asked_at now ticket request word) machine.old.core) result machine.new.core }
    ensures ranges { machine.new.ranges ≡ machine.old.ranges }
{
    match request {
        Request::Watch(ask) => ask_watch(machine, ticket, ask),
        request => ask_served(machine, asked_at(now, ticket, request, word), now),
    }
}

/// A watch joins a stream.
#[inline(never)]
fn ask_watch(machine: &mut Machine, ticket: u64, ask: WatchAsk) -> Result<Outcome, StepFault>
    requires given { machine.old.core.watches.given < 2 ^ 63 }
    requires unknown { watch_at ticket machine.old.core.watches.watches ≡ None }
    ensures step { Does machine.old.core (watch_is_asked ticket ask machine.old.core) result machine.new.core }
    ensures ranges { machine.new.ranges ≡ machine.old.ranges }
{
    match machine.watches.join(ticket, ask, machine.header) {
        Ok(_) => Ok(Outcome::Waiting),
        Err(NoMemory) => Err(StepFault::NoMemory),
    }
}

fn ask_served(machine: &mut Machine, ask: Asked, now: u64) -> Result<Outcome, StepFault>
    requires unknown { ask_at ask.ticket machine.old.core.asks ≡ None }
    requires leasing { machine.old.ranges.leasing ≡ leasing_range machine.old.core.own.waits.prefix }
    ensures step { Does machine.old.core (taken_in (moment machine.old.core now) ask machine.old.core) result machine.new.core }
    ensures ranges { machine.new.ranges ≡ machine.old.ranges }
{
    if machine.leases() {
        ask_leased(machine, ask, now)
    } else {
        ask_call(machine, ask)
    }
}

/// With leasing on: a plain read goes by its key, a write waits for its turn, and a transaction may be answered from held records.
#[inline(never)]
fn ask_leased(machine: &mut Machine, ask: Asked, now: u64) -> Result<Outcome, StepFault>
    requires unknown { ask_at ask.ticket machine.old.core.asks ≡ None }
    requires leasing { machine.old.ranges.leasing ≡ leasing_range machine.old.core.own.waits.prefix }
    ensures step { Does machine.old.core (leased_ask (moment machine.old.core now) ask machine.old.core) result machine.new.core }
    ensures ranges { machine.new.ranges ≡ machine.old.ranges }
{
    if is_leased_read(machine.reads.prefix(), &machine.range, &ask.request) {
        return ask_read(machine, ask, now);
    }
    if writes_keys(&ask.request) {
        return ask_write(machine, ask);
    }
    match held(machine, &ask.request, now) {
        Ok(body) => answer_or_call(machine, body, ask),
        Err(NoMemory) => Err(StepFault::NoMemory),
    }
}

/// A plain read is answered at once, or waits.
#[inline(never)]
fn ask_read(machine: &mut Machine, ask: Asked, now: u64) -> Result<Outcome, StepFault>
    requires unknown { ask_at ask.ticket machine.old.core.asks ≡ None }
    requires read { is_leased_read machine.old.core.own.waits.prefix ask.request ≡ true }
    ensures step { Does machine.old.core (read_is_asked (moment machine.old.core now) ask machine.old.core) result machine.new.core }
    ensures ranges { machine.new.ranges ≡ machine.old.ranges }
{
    match decide_read(machine, ask, now) {
        Ok(Some(verdict)) => {
            let Ok(reply) = reply_to(machine.alloc, verdict) else {
                return Err(StepFault::NoMemory);
            };
            Ok(Outcome::Replied(reply))
        }
        Ok(None) => {
            machine.go_on();
            Ok(Outcome::Waiting)
        }
        Err(NoMemory) => Err(StepFault::NoMemory),
    }
}

/// The verdict on a read of a held key, of which nothing is kept; any other waits. Where memory was wanting all is as before.
fn decide_read(machine: &mut Machine, ask: Asked, now: u64) -> Result<Option<Verdict>, NoMemory>
    requires unknown { ask_at ask.ticket machine.old.core.asks ≡ None }
    requires read { is_leased_read machine.old.core.own.waits.prefix ask.request ≡ true }
    ensures reply { IfOk result (λ reply. reply ≡ at_once (decided_ask (moment machine.old.core now) (ground_of (reads_of machine.old.core)) ask).stage) }
    ensures reads { IfOk result (λ reply. machine.new
        ≡ on machine.old (with_reads machine.old.core
        (after_read reply (moment machine.old.core now) ask (reads_of machine.old.core)))) }
    ensures err { OnErr result (machine.new ≡ machine.old) }
{
    let moment = machine.moment(now);
    machine.reads.ask_read(&moment, ask)
}

/// The reply that the verdict stands for.
fn reply_to(alloc: Global, verdict: Verdict) -> Result<Answer, NoMemory>
    ensures { IfOk result (λ reply. reply ≡ reply_of verdict) }
{
    let text = text_of(alloc, &verdict)?;
    Ok(reply_of(verdict, text))
}

#[inline(never)]
fn ask_write(machine: &mut Machine, ask: Asked) -> Result<Outcome, StepFault>
    requires unknown { ask_at ask.ticket machine.old.core.asks ≡ None }
    requires write { writes_keys ask.request ≡ true }
    ensures step { Does machine.old.core (write_is_asked ask machine.old.core) result machine.new.core }
    ensures ranges { machine.new.ranges ≡ machine.old.ranges }
{
    match machine.reads.ask_write(ask) {
        Ok(()) => {
            machine.go_on();
            Ok(Outcome::Waiting)
        }
        Err(NoMemory) => Err(StepFault::NoMemory),
    }
}

/// The answer to a transaction that only reads, where all of its keys are held under a live session.
#[inline(never)]
fn held(machine: &Machine, request: &Request, now: u64) -> Result<Option<Body>, NoMemory>
    ensures { IfOk result (λ body. body ≡ if_live (live_number machine.now.core.seat now) (held_body machine.now.core.own.entries request.now)) }
{
    match live_number(&machine.seat, now) {
        Some(_) => Ok(held_body(machine.alloc, machine.reads.table(), request)?),
        None => Ok(None),
    }
}

fn answer_or_call(
    machine: &mut Machine,
    body: Option<Body>,
    ask: Asked,
) -> Result<Outcome, StepFault>
    requires unknown { ask_at ask.ticket machine.old.core.asks ≡ None }
    ensures step { Does machine.old.core (answered_or_called body ask machine.old.core) result machine.new.core }
    ensures ranges { machine.new.ranges ≡ machine.old.ranges }
{
    match body {
        Some(body) => Ok(Outcome::Replied(Answer::Done(Reply {
            header: machine.header,
            body,
        }))),
        None => ask_call(machine, ask),
    }
}

/// A request that is passed on waits for a call.
fn ask_call(machine: &mut Machine, ask: Asked) -> Result<Outcome, StepFault>
    requires unknown { ask_at ask.ticket machine.old.core.asks ≡ None }
    ensures step { Does machine.old.core (call_is_asked ask machine.old.core) result machine.new.core }
    ensures ranges { machine.new.ranges ≡ machine.old.ranges }
{
    let stage = call_stage(
        machine.reads.step(),
        &ask.request,
        &machine.out,
        machine.reads.asks(),
    );
    match machine.reads.ask_call(ask, stage) {
        Ok(()) => {
            machine.go_on();
            Ok(Outcome::Waiting)
        }
        Err(NoMemory) => Err(StepFault::NoMemory),
    }
}
