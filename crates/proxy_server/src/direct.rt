ghost use Rattle.std.specs.Prelude.{◌≡◌, ◌≤◌, IfSome};
ghost use Rattle.outside.specs.Faults.{Rose};
ghost use Rattle.server_model.specs.Dialog.{Breaking};
ghost use Rattle.server_model.specs.Numbers.{IsElse};
ghost use Rattle.server_model.specs.Exchanges.{Directly};

use crate::ends::end_by;
use etcd_types::NoMemory;
use http_talk::{Answers, Received, RefusalForm, Refused, refuse_request, write_ready};
use outside::Sink;
use server_model::SessionEnd;
use std::alloc::Global;

/// Answers a request that the mapping refuses with no step: by what the object gives for it, else by its refusal.
#[inline(never)]
pub(crate) fn answer_directly<K: Sink, A: Answers>(
    alloc: Global,
    form: RefusalForm,
    sink: &mut K,
    answers: &mut A,
    received: &Received,
    refused: &Refused,
) -> Option<SessionEnd>
    ensures known { A.known answers.new ≡ A.known answers.old }
    ensures breaking { IfSome result Breaking }
    ensures other { IfSome result IsElse }
    ensures reading { IfSome result (λ end. end ≡ SessionEnd.ReadFault → ⊥) }
    ensures cause { IfSome result (λ end. end ≡ SessionEnd.WriteFault
        → Rose (K.faults sink.old) (K.faults sink.new)) }
    ensures kept { K.faults sink.old ≤ K.faults sink.new }
    ensures directly { Directly form (A.gives (A.known answers.old) received.now.head received.now.body)
        received.now.head.method refused.now (K.written sink.old) (K.written sink.new) result }
{
    match answers.answer(form, &received.head, received.body.as_slice()) {
        Ok(Some(ready)) => match write_ready(alloc, sink, &received.head.method, &ready) {
            Ok(()) => None,
            Err(fault) => Some(end_by(fault)),
        },
        Ok(None) => match refuse_request(alloc, form, sink, &received.head.method, refused) {
            Ok(()) => None,
            Err(fault) => Some(end_by(fault)),
        },
        Err(NoMemory) => Some(SessionEnd::NoMemory),
    }
}
