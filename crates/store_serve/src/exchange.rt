ghost use Rattle.std.specs.Prelude.{◌≡◌, ◌≤◌, None, IfNone, IfSome};
ghost use Rattle.std.specs.Io.KnownBytes.{Keeps};
ghost use Rattle.outside.specs.Faults.{Rose};
ghost use Rattle.http_wire.specs.Connections.{bytes_ahead};
ghost use Rattle.turn_hub.specs.Known.{made};
ghost use Rattle.turn_hub.specs.Steps.{IsAllowed};
ghost use Rattle.store_machine.specs.Standing.{Steps};
ghost use Rattle.shop_dialog.specs.Steps.{IsFull};
ghost use Rattle.shop_dialog.specs.Watching.{Breaking};
ghost use Rattle.shop_dialog.specs.Dialog.{asked_in};
ghost use Rattle.shop_dialog.specs.Exchanges.{Refuses, Replies, Turned};

use crate::ends::end_by;
use crate::reply::ask;
use etcd_types::NoMemory;
use http_talk::{Received, RefusalForm, Refused, asked, receive, refuse_request};
use http_wire::Wire;
use json_model::Reading;
use outside::{Clock, ReadMark, RequestKind, Sink, Source};
use shop_dialog::StoreEnd;
use std::alloc::Global;
use std::sync::Wait;
use store_machine::StoreMachine;
use turn_hub::{Hub, Pass};

/// Says what kind of request was read.
fn name_kind<S: Source>(source: &mut S, kind: RequestKind)
    ensures ahead { Keeps (S.left source.old) (S.left source.new) }
    ensures reads { S.faults source.new ≡ S.faults source.old }
{
    source.mark(ReadMark::Request(kind));
}

/// Tells why a request is refused. None where that was written.
fn refuse<K: Sink>(
    alloc: Global,
    sink: &mut K,
    received: &Received,
    refused: &Refused,
) -> Option<StoreEnd>
    ensures write_cause { IfSome result (λ end. end ≡ StoreEnd.WriteFault → Rose (K.faults sink.old) (K.faults sink.new)) }
    ensures reading { IfSome result (λ end. end ≡ StoreEnd.ReadFault → ⊥) }
    ensures breaking { IfSome result Breaking }
    ensures writes { K.faults sink.old ≤ K.faults sink.new }
    ensures refuses { Refuses received.now.head.method refused.now (K.written sink.old) (K.written sink.new) result }
{
    match refuse_request(
        alloc,
        RefusalForm::Mapping,
        sink,
        &received.head.method,
        refused,
    ) {
        Ok(()) => None,
        Err(fault) => Some(end_by(fault)),
    }
}

/// Answers a request that was read. One that the mapping refuses makes no step.
fn answer<R: Wait, S: Source, K: Sink, C: Clock>(
    rt: &R,
    alloc: Global,
    hub: &Hub<StoreMachine>,
    pass: &mut Pass<StoreMachine>,
    clock: &mut C,
    source: &mut S,
    sink: &mut K,
    received: &Received,
) -> Option<StoreEnd>
    requires pass { pass.old.hub ≡ hub.now }
    ensures home { pass.new.hub ≡ pass.old.hub }
    ensures allowed { IsAllowed Steps pass.old → IsAllowed Steps pass.new }
    ensures read_cause { IfSome result (λ end. end ≡ StoreEnd.ReadFault → Rose (S.faults source.old) (S.faults source.new)) }
    ensures write_cause { IfSome result (λ end. end ≡ StoreEnd.WriteFault → Rose (K.faults sink.old) (K.faults sink.new)) }
    ensures breaking { IfSome result Breaking }
    ensures reads { S.faults source.old ≤ S.faults source.new }
    ensures writes { K.faults sink.old ≤ K.faults sink.new }
    ensures ahead { Keeps (S.left source.old) (S.left source.new) }
    ensures replies { Replies (IsFull pass.new) received.now.head.method (asked_in received.now.head received.now.body)
        (made pass.old) (made pass.new) (K.written sink.old) (K.written sink.new) result }
{
    match asked(alloc, Reading::Call, received) {
        Ok(Ok(request)) => {
            name_kind(source, RequestKind::of(&request));
            ask(rt, alloc, hub, pass, clock, source, sink, request)
        }
        Ok(Err(refused)) => {
            name_kind(source, RequestKind::Other);
            refuse(alloc, sink, received, &refused)
        }
        Err(NoMemory) => Some(StoreEnd::NoMemory),
    }
}

/// Reads the next request and answers it. None where the connection goes on.
pub(crate) fn exchange<R: Wait, S: Source, K: Sink, C: Clock>(
    rt: &R,
    alloc: Global,
    wire: &mut Wire,
    hub: &Hub<StoreMachine>,
    pass: &mut Pass<StoreMachine>,
    clock: &mut C,
    source: &mut S,
    sink: &mut K,
) -> Option<StoreEnd>
    requires sound { wire.old.fault ≡ None }
    requires pass { pass.old.hub ≡ hub.now }
    ensures sound { IfNone result (wire.new.fault ≡ None) }
    ensures home { pass.new.hub ≡ pass.old.hub }
    ensures allowed { IsAllowed Steps pass.old → IsAllowed Steps pass.new }
    ensures read_cause { IfSome result (λ end. end ≡ StoreEnd.ReadFault → Rose (S.faults source.old) (S.faults source.new)) }
    ensures write_cause { IfSome result (λ end. end ≡ StoreEnd.WriteFault → Rose (K.faults sink.old) (K.faults sink.new)) }
    ensures reads { S.faults source.old ≤ S.faults source.new }
    ensures writes { K.faults sink.old ≤ K.faults sink.new }
    ensures turned { Turned (IsFull pass.new) (bytes_ahead (S.left source.old) wire.old) (bytes_ahead (S.left source.new) wire.new)
        (made pass.old) (made pass.new) (K.written sink.old) (K.written sink.new) result }
{
    let received = match receive(alloc, RefusalForm::Mapping, wire, source, sink) {
        Ok(Some(received)) => received,
        Ok(None) => return Some(StoreEnd::Closed),
        Err(fault) => return Some(end_by(fault)),
    };
    match answer(rt, alloc, hub, pass, clock, source, sink, &received) {
        Some(end) => Some(end),
        None => {
            if received.head.close {
                Some(StoreEnd::Closed)
            } else {
                None
            }
        }
    }
}
