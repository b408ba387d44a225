ghost use Rattle.std.specs.Prelude.{◌≡◌, ◌≤◌, None, OnOk, IfErr, IsErrOf, MatchBool};
ghost use Rattle.outside.specs.Faults.{Rose};
ghost use Rattle.std.specs.Io.KnownBytes.{Keeps};
ghost use Rattle.outside.specs.Streams.{WritesFront};
ghost use Rattle.http_wire.specs.Bodies.{is_of_bytes};
ghost use Rattle.http_wire.specs.Written.{Writes};
ghost use Rattle.http_wire.specs.Connections.{bytes_ahead, IsOfReading};
ghost use Rattle.http_talk.specs.Refusals as spec;
ghost use Rattle.http_talk.specs.Receiving.{Receives};
ghost use Rattle.http_talk.specs.Replies.{go_on_of};

use crate::form::RefusalForm;
use crate::received::Received;
use crate::refused::Refused;
use crate::refusing::refuse;
use http_wire::{Head, Wire, WireFault, write_continue};
use outside::{Sink, Source};
use std::alloc::Global;

/// Whether the fault is one of the client's bytes.
fn is_of_bytes(fault: WireFault) -> bool
    ensures { result ≡ is_of_bytes fault }
{
    match fault {
        WireFault::ReadFault | WireFault::NoMemory => false,
        _ => true,
    }
}

/// Tells the client of a fault of its bytes.
#[tactic(auto, using(crate::proofs::Said::front_by))]
fn refuse_bytes<K: Sink>(alloc: Global, form: RefusalForm, sink: &mut K, fault: WireFault)
    ensures kept { K.faults sink.old ≤ K.faults sink.new }
    ensures told { MatchBool (is_of_bytes fault) (WritesFront (K.written sink.old)
        (K.written sink.new) (spec.refusal form (Refused.Bytes)))
        (Keeps (K.written sink.old) (K.written sink.new)) }
{
    if is_of_bytes(fault) {
        let _ = refuse(alloc, form, sink, &Refused::Bytes);
    }
}

/// Tells the client to go on, where it waits for that.
#[tactic(auto, unfolding(crate::specs::Replies::go_on_of))]
fn encourage<K: Sink>(sink: &mut K, head: &Head) -> Result<(), WireFault>
    ensures kept { K.faults sink.old ≤ K.faults sink.new }
    ensures cause { IsErrOf result WireFault.WriteFault
        → Rose (K.faults sink.old) (K.faults sink.new) }
    ensures written { Writes (K.written sink.old) (K.written sink.new)
        (go_on_of head.now) result }
{
    if head.expects {
        write_continue(sink)
    } else {
        Ok(())
    }
}

/// Reads the next request. None where the input ended before it. The client is told of a fault of its bytes.
#[inline(never)]
pub fn receive<S: Source, K: Sink>(
    alloc: Global,
    form: RefusalForm,
    wire: &mut Wire,
    source: &mut S,
    sink: &mut K,
) -> Result<Option<Received>, WireFault>
    requires sound { wire.old.fault ≡ None }
    ensures sound { OnOk result (wire.new.fault ≡ None) }
    ensures read_cause { IsErrOf result WireFault.ReadFault
        → Rose (S.faults source.old) (S.faults source.new) }
    ensures write_cause { IsErrOf result WireFault.WriteFault
        → Rose (K.faults sink.old) (K.faults sink.new) }
    ensures reads { S.faults source.old ≤ S.faults source.new }
    ensures writes { K.faults sink.old ≤ K.faults sink.new }
    ensures receives { Receives form (bytes_ahead (S.left source.old) wire.old)
        (bytes_ahead (S.left source.new) wire.new) (K.written sink.old)
        (K.written sink.new) result }
{
    let head = match wire.read_head(source) {
        Ok(Some(head)) => head,
        Ok(None) => return Ok(None),
        Err(fault) => {
            refuse_bytes(alloc, form, sink, fault);
            return Err(fault);
        }
    };
    match encourage(sink, &head) {
        Ok(()) => {}
        Err(fault) => return Err(fault),
    }
    match wire.read_body(source, &head) {
        Ok(body) => Ok(Some(Received { head, body })),
        Err(fault) => {
            refuse_bytes(alloc, form, sink, fault);
            Err(fault)
        }
    }
}
