ghost use Rattle.std.specs.Prelude.{◌≡◌, ◌≤◌, IfSome};
ghost use Rattle.std.specs.Io.KnownBytes.{Keeps};
ghost use Rattle.etcd_types.specs.declared.request.Request.TheVariants as request;
ghost use Rattle.outside.specs.Faults.{Rose};
ghost use Rattle.turn_hub.specs.Known.{made};
ghost use Rattle.turn_hub.specs.Steps.{IsAllowed};
ghost use Rattle.store_model.specs.Step.{IsExecuted};
ghost use Rattle.store_machine.specs.Standing.{Steps};
ghost use Rattle.shop_dialog.specs.Steps.{IsFull};
ghost use Rattle.shop_dialog.specs.Watching.{Breaking};
ghost use Rattle.shop_dialog.specs.Exchanges.{Asks, end_in};

use crate::ends::{end_by, end_of};
use crate::shop::{exec, open_watch};
use crate::watch::follow;
use etcd_types::{Request, WatchAsk};
use http_talk::{RefusalForm, tell};
use outside::{Clock, Sink, Source};
use shop_dialog::{Stop, StoreEnd};
use std::alloc::Global;
use std::sync::Wait;
use store_machine::{StoreMachine, lot_of_watch};
use turn_hub::{Hub, Pass};

/// Executes a request that opens no watch, and tells its answer. None where that was written.
fn execute<R: Wait, K: Sink, C: Clock>(
    rt: &R,
    alloc: Global,
    hub: &Hub<StoreMachine>,
    pass: &mut Pass<StoreMachine>,
    clock: &mut C,
    sink: &mut K,
    request: Request,
) -> Option<StoreEnd>
    requires pass { pass.old.hub ≡ hub.now }
    requires executed { IsExecuted request }
    ensures home { pass.new.hub ≡ pass.old.hub }
    ensures allowed { IsAllowed Steps pass.new }
    ensures cause { IfSome result (λ end. end ≡ StoreEnd.WriteFault → Rose (K.faults sink.old) (K.faults sink.new)) }
    ensures reading { IfSome result (λ end. end ≡ StoreEnd.ReadFault → ⊥) }
    ensures breaking { IfSome result Breaking }
    ensures kept { K.faults sink.old ≤ K.faults sink.new }
    ensures asks { Asks (IsFull pass.new) request (made pass.old) (made pass.new) (K.written sink.old) (K.written sink.new) result }
{
    match exec(rt, hub, pass, clock, request) {
        Ok(answer) => match tell(alloc, RefusalForm::Mapping, sink, false, &answer) {
            Ok(()) => None,
            Err(fault) => Some(end_by(fault)),
        },
        Err(fault) => Some(end_of(fault)),
    }
}

/// The end of a connection that stopped so.
fn end_in(why: Stop) -> StoreEnd
    ensures { result ≡ end_in why }
{
    match why {
        Stop::Unanswered(end) | Stop::Answered(end) => end,
    }
}

/// Opens a watch, and tells its messages until its cancellation. None where that was written.
fn watch<R: Wait, S: Source, K: Sink, C: Clock>(
    rt: &R,
    alloc: Global,
    hub: &Hub<StoreMachine>,
    pass: &mut Pass<StoreMachine>,
    clock: &mut C,
    source: &mut S,
    sink: &mut K,
    ask: WatchAsk,
) -> Option<StoreEnd>
    requires pass { pass.old.hub ≡ hub.now }
    ensures home { pass.new.hub ≡ pass.old.hub }
    ensures allowed { IsAllowed Steps pass.new }
    ensures read_cause { IfSome result (λ end. end ≡ StoreEnd.ReadFault → Rose (S.faults source.old) (S.faults source.new)) }
    ensures write_cause { IfSome result (λ end. end ≡ StoreEnd.WriteFault → Rose (K.faults sink.old) (K.faults sink.new)) }
    ensures breaking { IfSome result Breaking }
    ensures reads { S.faults source.old ≤ S.faults source.new }
    ensures writes { K.faults sink.old ≤ K.faults sink.new }
    ensures ahead { Keeps (S.left source.old) (S.left source.new) }
    ensures asks { Asks (IsFull pass.new) (request.Watch ask) (made pass.old) (made pass.new) (K.written sink.old) (K.written sink.new) result }
{
    match open_watch(rt, hub, pass, clock, ask) {
        Ok(number) => {
            pass.rest_in_lot(lot_of_watch(number));
            match follow(rt, alloc, hub, pass, clock, source, sink, number) {
                Ok(()) => None,
                Err(why) => Some(end_in(why)),
            }
        }
        Err(fault) => Some(end_of(fault)),
    }
}

/// Answers a request whole, or says how the connection ends in its midst.
pub(crate) fn ask<R: Wait, S: Source, K: Sink, C: Clock>(
    rt: &R,
    alloc: Global,
    hub: &Hub<StoreMachine>,
    pass: &mut Pass<StoreMachine>,
    clock: &mut C,
    source: &mut S,
    sink: &mut K,
    request: Request,
) -> Option<StoreEnd>
    requires pass { pass.old.hub ≡ hub.now }
    ensures home { pass.new.hub ≡ pass.old.hub }
    ensures allowed { IsAllowed Steps pass.new }
    ensures read_cause { IfSome result (λ end. end ≡ StoreEnd.ReadFault → Rose (S.faults source.old) (S.faults source.new)) }
    ensures write_cause { IfSome result (λ end. end ≡ StoreEnd.WriteFault → Rose (K.faults sink.old) (K.faults sink.new)) }
    ensures breaking { IfSome result Breaking }
    ensures reads { S.faults source.old ≤ S.faults source.new }
    ensures writes { K.faults sink.old ≤ K.faults sink.new }
    ensures ahead { Keeps (S.left source.old) (S.left source.new) }
    ensures asks { Asks (IsFull pass.new) request (made pass.old) (made pass.new) (K.written sink.old) (K.written sink.new) result }
{
    match request {
        Request::Watch(ask) => watch(rt, alloc, hub, pass, clock, source, sink, ask),
        request => execute(rt, alloc, hub, pass, clock, sink, request),
    }
}
