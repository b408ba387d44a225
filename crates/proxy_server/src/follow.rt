ghost use Rattle.std.specs.Prelude.{[], IfErr, IsTrue};
ghost use Rattle.std.specs.Io.KnownBytes.{Keeps};
ghost use Rattle.server_model.specs.Numbers.{Asked};
ghost use Rattle.server_model.specs.Exchanges.{Follows, end_in};
ghost use Rattle.server_model.specs.Steps.{Rested, IsOfRest};
ghost use Rattle.proxy_server.specs.Causes.{IsOfAsking};
ghost use Rattle.proxy_server.specs.Kept.{IsCaused, IsUnnumbered, Kept};

use crate::ends::end_of;
use crate::take::take;
use crate::talk::Talk;
use crate::turn::Turn;
use http_talk::RefusalForm;
use outside::{Clock, Failed, Sink, Source};
use server_model::{SessionEnd, Stop, Taken};
use std::alloc::Global;
use std::sync::Wait;

/// Takes what comes for a ticket that waits, and tells it as it comes, until the last thing was told: the reply, or the message
/// that ends a watch. Where a rest brought nothing it looks whether the client is still there.
#[inline(never)]
pub(crate) fn follow<R: Wait, T: Turn, C: Clock, S: Source, K: Sink, D>(
    rt: &R,
    alloc: Global,
    form: RefusalForm,
    talk: &mut Talk<T, C, S, K, D>,
    ticket: u64,
) -> Result<(), Stop>
    ensures kept { Kept T.home T.allowed S.faults K.faults talk.old talk.new }
    ensures unnumbered { IsUnnumbered talk.old talk.new }
    ensures causes { IfErr result (λ why. IsCaused S.faults K.faults talk.old talk.new (end_in why)) }
    ensures end { IfErr result (λ why. IsOfAsking (end_in why)) }
    ensures ahead { Keeps (S.left talk.old.source.now) (S.left talk.new.source.now) }
    ensures quiet { Asked (T.made talk.old.turn.now) (T.made talk.new.turn.now) [] }
    ensures follows { Follows form T.rests (IsTrue (T.worn talk.new.turn.now)) ticket (T.made talk.old.turn.now)
        (T.made talk.new.turn.now) (K.written talk.old.sink.now) (K.written talk.new.sink.now) result }
{
    let mut begun = false;
    'takes: for _ in rt.forever() {
        match talk.turn.rest(talk.clock) {
            Ok(()) => {}
            Err(fault) => return Err(Stop::Unanswered(end_of(fault))),
        }
        match take(alloc, form, talk, ticket, begun) {
            Ok(Taken::Nothing) => {
                match talk.source.check() {
                    Ok(()) => {}
                    Err(Failed) => return Err(Stop::Unanswered(SessionEnd::ReadFault)),
                }
            }
            Ok(Taken::Part) => begun = true,
            Ok(Taken::Last) => return Ok(()),
            Err(why) => return Err(why),
        }
    }
    unreachable!()
}
