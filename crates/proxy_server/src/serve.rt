ghost use Rattle.std.specs.Prelude.{◌≡◌, IsTrue};
ghost use Rattle.outside.specs.Faults.{Rose};
ghost use Rattle.server_model.specs.Complete.{Completes};
ghost use Rattle.server_model.specs.Dialog.{Dialog};
ghost use Rattle.server_model.specs.Numbers.{LastNumbered};
ghost use Rattle.proxy_server.specs.Kept.{IsCaused, Kept};

use crate::exchange::exchange;
use crate::talk::Talk;
use crate::turn::Turn;
use http_talk::{Answers, RefusalForm};
use http_wire::Wire;
use outside::{Clock, Draw, Sink, Source, TicketRange};
use server_model::SessionEnd;
use std::alloc::Global;
use std::sync::Wait;

/// Exchanges requests and replies until the conversation ends.
fn converse<R: Wait, T: Turn, C: Clock, S: Source, K: Sink, D: Draw, A: Answers>(
    rt: &R,
    alloc: Global,
    form: RefusalForm,
    talk: &mut Talk<T, C, S, K, D>,
    answers: &mut A,
) -> SessionEnd
    ensures kept { Kept T.home T.allowed S.faults K.faults talk.old talk.new }
    ensures causes { IsCaused S.faults K.faults talk.old talk.new result }
    ensures known { A.known answers.new ≡ A.known answers.old }
    ensures numbered { LastNumbered result talk.old.tickets.end talk.old.tickets.next
        (D.given talk.old.draw.now) (D.given talk.new.draw.now)
        (T.made talk.old.turn.now) (T.made talk.new.turn.now) }
    ensures dialog { Dialog form (A.gives (A.known answers.old)) T.rests (IsTrue (T.worn talk.new.turn.now))
        (S.left talk.old.source.now) (T.made talk.old.turn.now) (T.made talk.new.turn.now)
        (K.written talk.old.sink.now) (K.written talk.new.sink.now) result }
    ensures complete { Completes (S.left talk.old.source.now) (T.made talk.old.turn.now)
        (T.made talk.new.turn.now) (IsTrue (T.worn talk.new.turn.now)) talk.old.tickets.end
        talk.old.tickets.next (S.faults talk.old.source.now) (S.faults talk.new.source.now)
        (K.faults talk.old.sink.now) (K.faults talk.new.sink.now) result }
{
    let Ok(mut wire) = Wire::new(alloc) else {
        return SessionEnd::NoMemory;
    };
    'requests: for _ in rt.forever() {
        match exchange(rt, alloc, form, &mut wire, talk, answers) {
            None => {}
            Some(end) => return end,
        }
    }
    unreachable!()
}

/// Serves a connection until it ends: reads requests, steps the turn for each, and writes their replies. Each Ask takes the next
/// ticket and one drawn word. A request that the JSON mapping refuses has the answer that `answers` gives for it, else its refusal: either
/// is written as it is, makes no step and takes no ticket. Where it ends in the midst of a request whose ticket is still known, it leaves that ticket.
/// `form` says how refusals are written.
pub fn serve_on<R: Wait, T: Turn, S: Source, K: Sink, C: Clock, D: Draw, A: Answers>(
    rt: &R,
    alloc: Global,
    form: RefusalForm,
    turn: &mut T,
    tickets: TicketRange,
    clock: &mut C,
    draw: &mut D,
    answers: &mut A,
    source: &mut S,
    sink: &mut K,
) -> SessionEnd
    ensures home { T.home turn.new ≡ T.home turn.old }
    ensures known { A.known answers.new ≡ A.known answers.old }
    ensures allowed { T.allowed turn.old → T.allowed turn.new }
    ensures read_cause { result ≡ SessionEnd.ReadFault
        → Rose (S.faults source.old) (S.faults source.new) }
    ensures write_cause { result ≡ SessionEnd.WriteFault
        → Rose (K.faults sink.old) (K.faults sink.new) }
    ensures numbered { LastNumbered result tickets.end tickets.next (D.given draw.old)
        (D.given draw.new) (T.made turn.old) (T.made turn.new) }
    ensures dialog { Dialog form (A.gives (A.known answers.old)) T.rests (IsTrue (T.worn turn.new))
        (S.left source.old) (T.made turn.old) (T.made turn.new) (K.written sink.old)
        (K.written sink.new) result }
    ensures complete { Completes (S.left source.old) (T.made turn.old) (T.made turn.new)
        (IsTrue (T.worn turn.new)) tickets.end tickets.next (S.faults source.old)
        (S.faults source.new) (K.faults sink.old) (K.faults sink.new) result }
{
    let mut talk = Talk {
        turn,
        clock,
        source,
        sink,
        draw,
        tickets,
    };
    converse(rt, alloc, form, &mut talk, answers)
}
