ghost use Rattle.std.specs.Prelude.{◌≡◌, IsTrue};
ghost use Rattle.server_model.specs.Steps.{FitsOutcome};
ghost use Rattle.server_model.specs.Working.{IsAt, IsDrawn, IsWorked, ended_by, ledger};
ghost use Rattle.proxy_workers.specs.Desks.{IsSame, told_by};
ghost use Rattle.proxy_server.specs.Stays.{Stays};

use crate::desk::Desk;
use crate::job::do_job;
use crate::seats::Seats;
use core_model::{CoreEvent, Job, Outcome, StepFault};
use etcd_types::{Bytes, List};
use outside::{Clock, Link, Spawner};
use proxy_server::Turn;
use server_model::{TurnFault, WorkEnd};
use std::alloc::Global;
use std::sync::Wait;

/// How a worker's turns end by a fault of a step or of a rest.
fn ended_by(fault: TurnFault) -> WorkEnd
    ensures { result ≡ ended_by fault }
{
    match fault {
        TurnFault::Core(StepFault::NoMemory) => WorkEnd::NoMemory,
        TurnFault::Worn | TurnFault::Core(_) => WorkEnd::Worn,
    }
}

/// The job that a step found due, if one is.
fn due_in(outcome: Outcome) -> Option<Job>
    requires fits { FitsOutcome CoreEvent.Work outcome }
    ensures { outcome ≡ Outcome.Job result }
{
    match outcome {
        Outcome::Job(job) => job,
        Outcome::Replied(_)
        | Outcome::Waiting
        | Outcome::Pending
        | Outcome::Item(_)
        | Outcome::Noted => unreachable!(),
    }
}

/// Draws what is due, and rests until something is.
fn draw<R: Wait, T: Turn, C: Clock>(rt: &R, turn: &mut T, clock: &mut C) -> Result<Job, WorkEnd>
    ensures stays { Stays T.home T.worn T.allowed turn.old turn.new }
    ensures drawn { IsDrawn T.rests (IsTrue (T.worn turn.new))
        (T.made turn.old) (T.made turn.new) result }
{
    'looks: for _ in rt.forever() {
        let outcome = match turn.turn(CoreEvent::Work, clock) {
            Ok(outcome) => outcome,
            Err(fault) => return Err(ended_by(fault)),
        };
        match due_in(outcome) {
            Some(job) => return Ok(job),
            None => {}
        }
        match turn.rest(clock) {
            Ok(()) => {}
            Err(fault) => return Err(ended_by(fault)),
        }
    }
    unreachable!()
}

/// Draws so many jobs at a desk, one after the other, and does each.
fn work_at<R: Wait, T: Seats, C: Clock, L: Link, P: Spawner<Pass = T::Place>>(
    rt: &R,
    alloc: Global,
    desk: &mut Desk<T, C, L, P>,
    hosts: &List<Bytes>,
    turns: u64,
) -> WorkEnd
where
    P::Conn: Drop,
    ensures stays { Stays T.home T.worn T.allowed desk.old.turn.now desk.new.turn.now }
    ensures same { IsSame desk.old desk.new }
    ensures worked { IsWorked hosts.now (IsAt T.place_home (T.home desk.old.turn.now)) T.rests
        (IsTrue (T.worn desk.new.turn.now)) turns
        (told_by T.made L.made P.handed L.faults P.faults desk.old)
        (told_by T.made L.made P.handed L.faults P.faults desk.new) result }
{
    'jobs: for _ in 0..turns {
        let job = match draw(rt, desk.turn, desk.clock) {
            Ok(job) => job,
            Err(end) => return end,
        };
        match do_job(alloc, desk, hosts, &job) {
            None => {}
            Some(end) => return end,
        }
    }
    WorkEnd::Turns
}

/// Draws so many jobs, one after the other, and does each: a call is made once on the link, a stream is handed to the spawner. It
/// ends before where no further step can be made, or memory was wanting.
pub fn work<R: Wait, T: Seats, L: Link, P: Spawner<Pass = T::Place>, C: Clock>(
    rt: &R,
    alloc: Global,
    turn: &mut T,
    clock: &mut C,
    link: &mut L,
    spawner: &mut P,
    hosts: &List<Bytes>,
    turns: u64,
) -> WorkEnd
where
    P::Conn: Drop,
    ensures stays { Stays T.home T.worn T.allowed turn.old turn.new }
    ensures worked { IsWorked hosts.now (IsAt T.place_home (T.home turn.old)) T.rests
        (IsTrue (T.worn turn.new)) turns
        (ledger (T.made turn.old) (L.made link.old) (P.handed spawner.old)
        (L.faults link.old) (P.faults spawner.old))
        (ledger (T.made turn.new) (L.made link.new) (P.handed spawner.new)
        (L.faults link.new) (P.faults spawner.new)) result }
{
    let mut desk = Desk {
        turn,
        clock,
        link,
        spawner,
    };
    work_at(rt, alloc, &mut desk, hosts, turns)
}
