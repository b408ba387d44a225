ghost use Rattle.std.specs.Prelude.{◌≡◌, [], IfErr, IsTrue};
ghost use Rattle.std.specs.Io.KnownBytes.{Keeps};
ghost use Rattle.server_model.specs.Dialog.{is_in_use};
ghost use Rattle.server_model.specs.Numbers.{Asked, AsksOne};
ghost use Rattle.server_model.specs.Exchanges.{Asks, Left, IsOfTicket};
ghost use Rattle.proxy_server.specs.Causes.{IsOfAsking};
ghost use Rattle.proxy_server.specs.Kept.{IsCaused, IsUnnumbered, Kept};

use crate::ends::{end_by, end_of};
use crate::follow::follow;
use crate::talk::Talk;
use crate::turn::Turn;
use core_model::{CoreEvent, Outcome, StepFault};
use etcd_types::Request;
use http_talk::{RefusalForm, tell};
use outside::{Clock, Sink, Source};
use server_model::{Attempt, SessionEnd, Stop, TurnFault};
use std::alloc::Global;
use std::sync::Wait;

/// Whether the ticket that was asked is in use.
fn is_in_use(fault: TurnFault) -> bool
    ensures { result ≡ is_in_use fault }
{
    matches!(fault, TurnFault::Core(StepFault::TicketUsed(_)))
}

/// Leaves the ticket where it is still known and steps are still made.
fn leave<T: Turn, C: Clock, S: Source, K: Sink, D>(
    talk: &mut Talk<T, C, S, K, D>,
    ticket: u64,
    end: SessionEnd,
) -> SessionEnd
    ensures kept { Kept T.home T.allowed S.faults K.faults talk.old talk.new }
    ensures unnumbered { IsUnnumbered talk.old talk.new }
    ensures elsewhere { (talk.new.source.now ≡ talk.old.source.now) × (talk.new.sink.now ≡ talk.old.sink.now) }
    ensures asking { IsOfAsking end → IsOfAsking result }
    ensures reading { result ≡ SessionEnd.ReadFault → end ≡ SessionEnd.ReadFault }
    ensures writing { result ≡ SessionEnd.WriteFault → end ≡ SessionEnd.WriteFault }
    ensures quiet { Asked (T.made talk.old.turn.now) (T.made talk.new.turn.now) [] }
    ensures late { IsTrue (T.worn talk.old.turn.now) → IsTrue (T.worn talk.new.turn.now) }
    ensures left { IsOfTicket ticket end → Left T.rests (IsTrue (T.worn talk.new.turn.now)) ticket end result
        (T.made talk.old.turn.now) (T.made talk.new.turn.now) }
{
    match end {
        SessionEnd::Worn => SessionEnd::Worn,
        SessionEnd::TicketTaken(other) => SessionEnd::TicketTaken(other),
        _ => {
            let fault = match talk.turn.turn(CoreEvent::Leave { ticket }, talk.clock) {
                Ok(_) => return end,
                Err(fault) => fault,
            };
            if fault.is_worn() {
                SessionEnd::Worn
            } else {
                end
            }
        }
    }
}

/// Asks with a ticket, and serves the request until its reply is whole.
#[inline(never)]
pub(crate) fn ask<R: Wait, T: Turn, C: Clock, S: Source, K: Sink, D>(
    rt: &R,
    alloc: Global,
    form: RefusalForm,
    talk: &mut Talk<T, C, S, K, D>,
    ticket: u64,
    word: u64,
    request: Request,
) -> Result<Attempt, SessionEnd>
    ensures kept { Kept T.home T.allowed S.faults K.faults talk.old talk.new }
    ensures unnumbered { IsUnnumbered talk.old talk.new }
    ensures causes { IfErr result (IsCaused S.faults K.faults talk.old talk.new) }
    ensures end { IfErr result IsOfAsking }
    ensures ahead { Keeps (S.left talk.old.source.now) (S.left talk.new.source.now) }
    ensures one { AsksOne ticket word (T.made talk.old.turn.now) (T.made talk.new.turn.now) result }
    ensures asks { Asks form T.rests (IsTrue (T.worn talk.new.turn.now)) request (T.made talk.old.turn.now)
        (T.made talk.new.turn.now) (K.written talk.old.sink.now) (K.written talk.new.sink.now) result }
{
    let asked = CoreEvent::Ask {
        ticket,
        request,
        word,
    };
    match talk.turn.turn(asked, talk.clock) {
        Ok(Outcome::Replied(answer)) => match tell(alloc, form, talk.sink, false, &answer) {
            Ok(()) => Ok(Attempt::Whole),
            Err(fault) => Err(end_by(fault)),
        },
        Ok(Outcome::Waiting) => match follow(rt, alloc, form, talk, ticket) {
            Ok(()) => Ok(Attempt::Whole),
            Err(Stop::Unanswered(end)) => Err(leave(talk, ticket, end)),
            Err(Stop::Answered(end)) => Err(end),
        },
        Ok(Outcome::Pending | Outcome::Item(_) | Outcome::Noted | Outcome::Job(_)) => {
            unreachable!()
        }
        Err(fault) => {
            if is_in_use(fault) {
                Ok(Attempt::InUse)
            } else {
                Err(end_of(fault))
            }
        }
    }
}
