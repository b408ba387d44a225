ghost use Rattle.std.specs.Prelude.{◌≡◌};
ghost use Rattle.outside.specs.Faults.{Rose};
ghost use Rattle.turn_hub.specs.Known.{made};
ghost use Rattle.turn_hub.specs.Steps.{IsAllowed};
ghost use Rattle.store_machine.specs.Standing.{Steps};
ghost use Rattle.shop_dialog.specs.Steps.{IsFull};
ghost use Rattle.shop_dialog.specs.Dialog.{Dialog};

use crate::exchange::exchange;
use http_wire::Wire;
use outside::{Clock, Sink, Source};
use shop_dialog::StoreEnd;
use std::alloc::Global;
use std::sync::Wait;
use store_machine::StoreMachine;
use turn_hub::{Hub, Pass};

/// Serves a connection until it ends: reads requests, makes a step of the store for each, or for a watch one that opens it and then one for each
/// message, and writes their replies. A request that the JSON mapping refuses has its refusal, and makes no step.
pub fn serve_store<R: Wait, S: Source, K: Sink, C: Clock>(
    rt: &R,
    alloc: Global,
    hub: &Hub<StoreMachine>,
    pass: &mut Pass<StoreMachine>,
    clock: &mut C,
    source: &mut S,
    sink: &mut K,
) -> StoreEnd
    requires { pass.old.hub ≡ hub.now }
    ensures home { pass.new.hub ≡ pass.old.hub }
    ensures allowed { IsAllowed Steps pass.old → IsAllowed Steps pass.new }
    ensures read_cause { result ≡ StoreEnd.ReadFault → Rose (S.faults source.old) (S.faults source.new) }
    ensures write_cause { result ≡ StoreEnd.WriteFault → Rose (K.faults sink.old) (K.faults sink.new) }
    ensures dialog { Dialog (IsFull pass.new) (S.left source.old) (made pass.old) (made pass.new) (K.written sink.old) (K.written sink.new) result }
{
    let Ok(mut wire) = Wire::new(alloc) else {
        return StoreEnd::NoMemory;
    };
    'requests: for _ in rt.forever() {
        match exchange(rt, alloc, &mut wire, hub, pass, clock, source, sink) {
            None => {}
            Some(end) => return end,
        }
    }
    unreachable!()
}
