ghost use Rattle.std.specs.Prelude.{◌≡◌, IfOk, IsTrue};
ghost use Rattle.server_model.specs.Working.{IsAt, IsCallMade, IsDone, IsHandedOver, host_of, lost_end};
ghost use Rattle.proxy_workers.specs.Desks.{IsSame, told_by};
ghost use Rattle.proxy_workers.specs.Handed.{IsFollower};
ghost use Rattle.proxy_server.specs.Stays.{Stays};

use crate::desk::Desk;
use crate::seats::Seats;
use crate::steps::{feed, report};
use core_model::{CoreEvent, Job};
use etcd_types::{Bytes, List, NoMemory, Request};
use outside::{Clock, Follow, Link, Part, Spawner};
use proxy_calls::{call_bytes, kind_of, make_call};
use proxy_server::Turn;
use server_model::{CallFault, WorkEnd};
use std::alloc::Global;

/// How long a worker pauses where nobody could be started to follow a stream, in milliseconds: a core begins a stream that was cut
/// again at once, and would turn for ever.
const PAUSE_MS: u64 = 250;

/// The host of a member, from 1 on, or nothing where there is none.
fn host_of(hosts: &List<Bytes>, member: u32) -> &[u8]
    ensures { result.now ≡ host_of hosts.now member }
{
    match hosts.as_slice().get((member as usize).saturating_sub(1)) {
        Some(host) => host.as_slice(),
        None => b"".as_slice(),
    }
}

/// The end by a call that has no answer, if it is one.
fn lost_end(fault: CallFault) -> Option<WorkEnd>
    ensures { result ≡ lost_end fault }
{
    match fault {
        CallFault::Lost => None,
        CallFault::NoMemory => Some(WorkEnd::NoMemory),
    }
}

/// Makes a call once, and feeds its answer, or its loss. An end, where the worker's turns end with it.
fn do_call<T: Turn, C: Clock, L: Link, P>(
    alloc: Global,
    desk: &mut Desk<T, C, L, P>,
    host: &[u8],
    call: u64,
    member: u32,
    request: &Request,
) -> Option<WorkEnd>
    ensures stays { Stays T.home T.worn T.allowed desk.old.turn.now desk.new.turn.now }
    ensures same { IsSame desk.old desk.new }
    ensures unspawned { desk.new.spawner.now ≡ desk.old.spawner.now }
    ensures made { IsCallMade (IsTrue (T.worn desk.new.turn.now)) host.now call member request.now
        (T.made desk.old.turn.now) (T.made desk.new.turn.now) (L.made desk.old.link.now) (L.made desk.new.link.now)
        (L.faults desk.old.link.now) (L.faults desk.new.link.now) result }
{
    let kind = kind_of(request);
    match make_call(alloc, desk.link, host, member, kind, request) {
        Ok(answer) => report(desk.turn, desk.clock, call, answer),
        Err(fault) => feed(
            desk.turn,
            desk.clock,
            CoreEvent::Lost { call },
            lost_end(fault),
        ),
    }
}

/// A stream that is to be followed, with a seat of its own and the bytes of its call, which asks for a connection of its own.
fn follower<T: Seats, C>(
    alloc: Global,
    turn: &mut T,
    host: &[u8],
    stream: u64,
    member: u32,
    request: &Request,
) -> Result<Part<T::Place, C>, NoMemory>
    ensures made { T.made turn.new ≡ T.made turn.old }
    ensures stays { Stays T.home T.worn T.allowed turn.old turn.new }
    ensures part { IfOk result (λ part. IsFollower T.place_home (T.home turn.old)
        host.now stream member request.now part) }
{
    let call = call_bytes(alloc, host, request)?;
    let place = turn.another()?;
    Ok(Part::Follower(
        place,
        Follow {
            stream,
            member,
            call,
        },
    ))
}

/// Hands a stream over to be followed, or cuts it, behind a pause, where it can't be started. An end, where the worker's turns end with it.
fn do_begin<T: Seats, C: Clock, L, P: Spawner<Pass = T::Place>>(
    alloc: Global,
    desk: &mut Desk<T, C, L, P>,
    host: &[u8],
    stream: u64,
    member: u32,
    request: &Request,
) -> Option<WorkEnd>
where
    P::Conn: Drop,
    ensures stays { Stays T.home T.worn T.allowed desk.old.turn.now desk.new.turn.now }
    ensures same { IsSame desk.old desk.new }
    ensures uncalled { desk.new.link.now ≡ desk.old.link.now }
    ensures over { IsHandedOver (IsTrue (T.worn desk.new.turn.now)) host.now
        (IsAt T.place_home (T.home desk.old.turn.now)) stream member request.now
        (T.made desk.old.turn.now) (T.made desk.new.turn.now)
        (P.handed desk.old.spawner.now) (P.handed desk.new.spawner.now)
        (P.faults desk.old.spawner.now) (P.faults desk.new.spawner.now) result }
{
    let Ok(part) = follower(alloc, desk.turn, host, stream, member, request) else {
        return feed(
            desk.turn,
            desk.clock,
            CoreEvent::Cut { stream },
            Some(WorkEnd::NoMemory),
        );
    };
    match desk.spawner.start(part) {
        Ok(()) => return None,
        Err(_) => {}
    }
    desk.clock.pause(PAUSE_MS);
    feed(desk.turn, desk.clock, CoreEvent::Cut { stream }, None)
}

/// Does a job that was drawn. An end, where the worker's turns end with it.
pub(crate) fn do_job<T: Seats, C: Clock, L: Link, P: Spawner<Pass = T::Place>>(
    alloc: Global,
    desk: &mut Desk<T, C, L, P>,
    hosts: &List<Bytes>,
    job: &Job,
) -> Option<WorkEnd>
where
    P::Conn: Drop,
    ensures stays { Stays T.home T.worn T.allowed desk.old.turn.now desk.new.turn.now }
    ensures same { IsSame desk.old desk.new }
    ensures done { IsDone hosts.now (IsAt T.place_home (T.home desk.old.turn.now))
        (IsTrue (T.worn desk.new.turn.now)) job.now
        (told_by T.made L.made P.handed L.faults P.faults desk.old)
        (told_by T.made L.made P.handed L.faults P.faults desk.new) result }
{
    match job {
        Job::Call {
            call,
            member,
            request,
            ..
        } => do_call(
            alloc,
            desk,
            host_of(hosts, *member),
            *call,
            *member,
            request,
        ),
        Job::Begin {
            stream,
            member,
            request,
        } => do_begin(
            alloc,
            desk,
            host_of(hosts, *member),
            *stream,
            *member,
            request,
        ),
        Job::Close { stream } => {
            desk.link.forget(*stream);
            None
        }
    }
}
