ghost use Rattle.std.specs.Prelude.{◌≡◌, ◌≤◌, [], IfErr, IsTrue};
ghost use Rattle.outside.specs.Faults.{Rose};
ghost use Rattle.server_model.specs.Numbers.{Asked};
ghost use Rattle.server_model.specs.Exchanges.{Takes, PassesOn, end_in};
ghost use Rattle.proxy_server.specs.Causes.{IsOfTakes, IsOfAsking};
ghost use Rattle.proxy_server.specs.Kept.{IsUnnumbered, Kept};

use crate::ends::{end_by, end_of};
use crate::talk::Talk;
use crate::turn::Turn;
use core_model::{CoreEvent, Outcome};
use http_talk::{RefusalForm, is_cancel, tell, tell_item};
use outside::{Clock, Sink, Source};
use server_model::{SessionEnd, Stop, Taken};
use std::alloc::Global;
use told_items::Told;

/// Passes a message of a watch on to the client.
fn pass_on<K: Sink>(alloc: Global, sink: &mut K, begun: bool, told: &Told) -> Result<Taken, Stop>
    ensures cause { IfErr result (λ why. end_in why ≡ SessionEnd.WriteFault
        → Rose (K.faults sink.old) (K.faults sink.new)) }
    ensures kept { K.faults sink.old ≤ K.faults sink.new }
    ensures end { IfErr result (λ why. IsOfTakes (end_in why)) }
    ensures asking { IfErr result (λ why. IsOfAsking (end_in why)) }
    ensures passes { PassesOn begun told.now (K.written sink.old) (K.written sink.new) result }
{
    let last = is_cancel(told.item());
    match tell_item(alloc, sink, begun, told) {
        Ok(()) => {
            if last {
                Ok(Taken::Last)
            } else {
                Ok(Taken::Part)
            }
        }
        Err(fault) => {
            let end = end_by(fault);
            if last {
                Err(Stop::Answered(end))
            } else {
                Err(Stop::Unanswered(end))
            }
        }
    }
}

/// Takes what is there for a ticket, and tells it. `begun` says whether the head of a reply in chunks was written.
pub(crate) fn take<T: Turn, C: Clock, S: Source, K: Sink, D>(
    alloc: Global,
    form: RefusalForm,
    talk: &mut Talk<T, C, S, K, D>,
    ticket: u64,
    begun: bool,
) -> Result<Taken, Stop>
    ensures kept { Kept T.home T.allowed S.faults K.faults talk.old talk.new }
    ensures unnumbered { IsUnnumbered talk.old talk.new }
    ensures unread { talk.new.source.now ≡ talk.old.source.now }
    ensures cause { IfErr result (λ why. end_in why ≡ SessionEnd.WriteFault
        → Rose (K.faults talk.old.sink.now) (K.faults talk.new.sink.now)) }
    ensures end { IfErr result (λ why. IsOfTakes (end_in why)) }
    ensures asking { IfErr result (λ why. IsOfAsking (end_in why)) }
    ensures quiet { Asked (T.made talk.old.turn.now) (T.made talk.new.turn.now) [] }
    ensures takes { Takes form T.rests (IsTrue (T.worn talk.new.turn.now)) ticket begun (T.made talk.old.turn.now)
        (T.made talk.new.turn.now) (K.written talk.old.sink.now) (K.written talk.new.sink.now) result }
{
    match talk.turn.turn(CoreEvent::Take { ticket }, talk.clock) {
        Ok(Outcome::Pending) => Ok(Taken::Nothing),
        Ok(Outcome::Replied(answer)) => match tell(alloc, form, talk.sink, begun, &answer) {
            Ok(()) => Ok(Taken::Last),
            Err(fault) => Err(Stop::Answered(end_by(fault))),
        },
        Ok(Outcome::Item(told)) => pass_on(alloc, talk.sink, begun, &told),
        Ok(Outcome::Waiting | Outcome::Noted | Outcome::Job(_)) => unreachable!(),
        Err(fault) => Err(Stop::Unanswered(end_of(fault))),
    }
}
