ghost use Rattle.std.specs.Prelude.{◌≡◌, ◌<◌, ◌+◌, None, IfNone, IfSome, IfOk, IfErr, IsTrue};
ghost use Rattle.std.specs.Io.KnownBytes.{Keeps};
ghost use Rattle.http_wire.specs.Connections.{bytes_ahead};
ghost use Rattle.http_talk.specs.Requests.{asked_of};
ghost use Rattle.json_model.specs.declared.extra.Reading.TheVariants.{Client as OfClient};
ghost use Rattle.server_model.specs.Dialog.{Turned, Breaking};
ghost use Rattle.server_model.specs.Numbers.{NumberedSo, NumberedBy};
ghost use Rattle.server_model.specs.Exchanges.{Asks, Replies};
ghost use Rattle.proxy_server.specs.Kept.{IsCaused, Kept};

use crate::ask::ask;
use crate::direct::answer_directly;
use crate::receive::receive;
use crate::talk::Talk;
use crate::turn::Turn;
use etcd_types::{NoMemory, Request};
use http_talk::{Answers, RefusalForm, asked};
use http_wire::Wire;
use json_model::Reading;
use outside::{Clock, Draw, ReadMark, RequestKind, Sink, Source};
use server_model::{Attempt, Received, SessionEnd};
use std::alloc::Global;
use std::sync::Wait;

/// Says what kind of request was read.
fn name_kind<S: Source>(source: &mut S, kind: RequestKind)
    ensures ahead { Keeps (S.left source.old) (S.left source.new) }
    ensures reads { S.faults source.new ≡ S.faults source.old }
{
    source.mark(ReadMark::Request(kind));
}

/// Asks a request with the next ticket and a drawn word, if a ticket is left.
#[inline(never)]
fn respond<R: Wait, T: Turn, C: Clock, S: Source, K: Sink, D: Draw>(
    rt: &R,
    alloc: Global,
    form: RefusalForm,
    talk: &mut Talk<T, C, S, K, D>,
    request: Request,
) -> Result<Attempt, SessionEnd>
    ensures kept { Kept T.home T.allowed S.faults K.faults talk.old talk.new }
    ensures causes { IfErr result (IsCaused S.faults K.faults talk.old talk.new) }
    ensures next { IfOk result (λ attempt. talk.old.tickets.next < talk.old.tickets.end
        × talk.new.tickets.next ≡ talk.old.tickets.next + 1) }
    ensures breaking { IfErr result Breaking }
    ensures ahead { Keeps (S.left talk.old.source.now) (S.left talk.new.source.now) }
    ensures numbered { NumberedBy talk.old.tickets.end talk.old.tickets.next talk.new.tickets.next
        (D.given talk.old.draw.now) (D.given talk.new.draw.now) (T.made talk.old.turn.now) (T.made talk.new.turn.now) result }
    ensures asks { Asks form T.rests (IsTrue (T.worn talk.new.turn.now)) request (T.made talk.old.turn.now)
        (T.made talk.new.turn.now) (K.written talk.old.sink.now) (K.written talk.new.sink.now) result }
{
    name_kind(talk.source, RequestKind::of(&request));
    if talk.tickets.next >= talk.tickets.end {
        return Err(SessionEnd::OutOfTickets);
    }
    let ticket = talk.tickets.next;
    talk.tickets.next += 1;
    let word = talk.draw.word();
    match ask(rt, alloc, form, talk, ticket, word, request) {
        Ok(attempt) => Ok(attempt),
        Err(end) => Err(end),
    }
}

/// Answers a request that was read. Where a ticket is in use, it asks again with the next one. One that the mapping refuses is answered
/// with no step.
#[inline(never)]
fn answer<R: Wait, T: Turn, C: Clock, S: Source, K: Sink, D: Draw, A: Answers>(
    rt: &R,
    alloc: Global,
    form: RefusalForm,
    talk: &mut Talk<T, C, S, K, D>,
    answers: &mut A,
    received: &Received,
) -> Option<SessionEnd>
    ensures kept { Kept T.home T.allowed S.faults K.faults talk.old talk.new }
    ensures causes { IfSome result (IsCaused S.faults K.faults talk.old talk.new) }
    ensures known { A.known answers.new ≡ A.known answers.old }
    ensures breaking { IfSome result Breaking }
    ensures ahead { Keeps (S.left talk.old.source.now) (S.left talk.new.source.now) }
    ensures numbered { NumberedSo talk.old.tickets.end talk.old.tickets.next talk.new.tickets.next
        (D.given talk.old.draw.now) (D.given talk.new.draw.now) (T.made talk.old.turn.now) (T.made talk.new.turn.now) result }
    ensures replies { Replies form T.rests (IsTrue (T.worn talk.new.turn.now))
        (A.gives (A.known answers.old) received.now.head received.now.body)
        received.now.head.method (asked_of OfClient received.now.head received.now.body)
        (T.made talk.old.turn.now) (T.made talk.new.turn.now) (K.written talk.old.sink.now) (K.written talk.new.sink.now) result }
{
    'tries: loop {
        match asked(alloc, Reading::Client, received) {
            Ok(Ok(request)) => match respond(rt, alloc, form, talk, request) {
                Ok(Attempt::Whole) => return None,
                Ok(Attempt::InUse) => {}
                Err(end) => return Some(end),
            },
            Ok(Err(refused)) => {
                name_kind(talk.source, RequestKind::Other);
                match answer_directly(alloc, form, talk.sink, answers, received, &refused) {
                    None => return None,
                    Some(end) => return Some(end),
                }
            }
            Err(NoMemory) => return Some(SessionEnd::NoMemory),
        }
    }
}

/// Reads the next request and answers it. None where the connection goes on.
pub(crate) fn exchange<R: Wait, T: Turn, C: Clock, S: Source, K: Sink, D: Draw, A: Answers>(
    rt: &R,
    alloc: Global,
    form: RefusalForm,
    wire: &mut Wire,
    talk: &mut Talk<T, C, S, K, D>,
    answers: &mut A,
) -> Option<SessionEnd>
    requires sound { wire.old.fault ≡ None }
    ensures kept { Kept T.home T.allowed S.faults K.faults talk.old talk.new }
    ensures causes { IfSome result (IsCaused S.faults K.faults talk.old talk.new) }
    ensures known { A.known answers.new ≡ A.known answers.old }
    ensures sound { IfNone result (wire.new.fault ≡ None) }
    ensures numbered { NumberedSo talk.old.tickets.end talk.old.tickets.next talk.new.tickets.next
        (D.given talk.old.draw.now) (D.given talk.new.draw.now) (T.made talk.old.turn.now) (T.made talk.new.turn.now) result }
    ensures turned { Turned form (A.gives (A.known answers.old)) T.rests (IsTrue (T.worn talk.new.turn.now))
        (bytes_ahead (S.left talk.old.source.now) wire.old) (bytes_ahead (S.left talk.new.source.now) wire.new)
        (T.made talk.old.turn.now) (T.made talk.new.turn.now) (K.written talk.old.sink.now) (K.written talk.new.sink.now) result }
{
    let received = match receive(alloc, form, wire, talk.source, talk.sink) {
        Ok(received) => received,
        Err(end) => return Some(end),
    };
    match answer(rt, alloc, form, talk, answers, &received) {
        Some(end) => Some(end),
        None => {
            if received.head.close {
                Some(SessionEnd::Closed)
            } else {
                None
            }
        }
    }
}
