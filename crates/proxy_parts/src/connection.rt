ghost use Rattle.std.specs.Prelude.{◌≡◌, Some, IsTrue};
ghost use Rattle.outside.specs.Faults.{Rose};
ghost use Rattle.turn_hub.specs.History.{Begins};
ghost use Rattle.turn_hub.specs.Known.{made};
ghost use Rattle.turn_hub.specs.Steps.{StandsAt};
ghost use Rattle.server_model.specs.Complete.{Completes};
ghost use Rattle.server_model.specs.Dialog.{Dialog};
ghost use Rattle.server_model.specs.Numbers.{LastNumbered};
ghost use Rattle.server_model.specs.Steps.{NoEvent};
ghost use Rattle.proxy_parts.specs.Passes.{IsSound, is_at_limit};

use crate::seated::Seated;
use outside::{Clock, Draw, Sink, Source, TicketRange};
use proxy_core::Core;
use proxy_server::{Answers, RefusalForm, serve_on};
use server_model::SessionEnd;
use std::alloc::Global;
use std::sync::Wait;
use turn_hub::{Hub, Pass};

/// Serves a connection over a pass of the hub, with these tickets: what it writes are the outcomes of the pass's own entries in the hub's
/// history, which is one that the core allows. How it ends is said by `SessionEnd`.
pub fn serve_connection<R: Wait, S: Source, K: Sink, C: Clock, D: Draw, A: Answers>(
    rt: &R,
    alloc: Global,
    form: RefusalForm,
    hub: &Hub<Core>,
    pass: &mut Pass<Core>,
    tickets: TicketRange,
    clock: &mut C,
    draw: &mut D,
    answers: &mut A,
    source: &mut S,
    sink: &mut K,
) -> SessionEnd
    requires { pass.old.hub ≡ hub.now }
    ensures known { A.known answers.new ≡ A.known answers.old }
    ensures hub { pass.new.hub ≡ pass.old.hub }
    ensures allowed { IsSound pass.new }
    ensures grows { Begins pass.old.seen pass.new.seen }
    ensures stands { StandsAt pass.new }
    ensures read_cause { result ≡ SessionEnd.ReadFault
        → Rose (S.faults source.old) (S.faults source.new) }
    ensures write_cause { result ≡ SessionEnd.WriteFault
        → Rose (K.faults sink.old) (K.faults sink.new) }
    ensures numbered { LastNumbered result tickets.end tickets.next (D.given draw.old)
        (D.given draw.new) (Some (made pass.old)) (Some (made pass.new)) }
    ensures dialog { Dialog form (A.gives (A.known answers.old)) NoEvent (IsTrue (is_at_limit pass.new))
        (S.left source.old) (Some (made pass.old)) (Some (made pass.new)) (K.written sink.old)
        (K.written sink.new) result }
    ensures complete { Completes (S.left source.old) (Some (made pass.old)) (Some (made pass.new))
        (IsTrue (is_at_limit pass.new)) tickets.end tickets.next (S.faults source.old)
        (S.faults source.new) (K.faults sink.old) (K.faults sink.new) result }
{
    let mine = hub.split(pass);
    let mut seated = Seated::new(rt, hub, mine);
    let end = serve_on(
        rt,
        alloc,
        form,
        &mut seated,
        tickets,
        clock,
        draw,
        answers,
        source,
        sink,
    );
    hub.join(pass, seated.into_pass());
    end
}
