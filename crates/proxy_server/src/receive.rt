ghost use Rattle.std.specs.Prelude.{◌≡◌, ◌≤◌, None, OnOk, IfErr};
ghost use Rattle.outside.specs.Faults.{Rose};
ghost use Rattle.http_wire.specs.Connections.{bytes_ahead};
ghost use Rattle.server_model.specs.Numbers.{IsElse};
ghost use Rattle.server_model.specs.Exchanges.{Received as Gets};

use crate::ends::end_by;
use http_talk::RefusalForm;
use http_wire::Wire;
use outside::{Sink, Source};
use server_model::{Received, SessionEnd};
use std::alloc::Global;

/// Reads the next request, or says how the connection ends where none was read whole.
#[inline(never)]
pub(crate) fn receive<S: Source, K: Sink>(
    alloc: Global,
    form: RefusalForm,
    wire: &mut Wire,
    source: &mut S,
    sink: &mut K,
) -> Result<Received, SessionEnd>
    requires sound { wire.old.fault ≡ None }
    ensures sound { OnOk result (wire.new.fault ≡ None) }
    ensures read_cause { IfErr result (λ end. end ≡ SessionEnd.ReadFault
        → Rose (S.faults source.old) (S.faults source.new)) }
    ensures write_cause { IfErr result (λ end. end ≡ SessionEnd.WriteFault
        → Rose (K.faults sink.old) (K.faults sink.new)) }
    ensures other { IfErr result IsElse }
    ensures reads { S.faults source.old ≤ S.faults source.new }
    ensures writes { K.faults sink.old ≤ K.faults sink.new }
    ensures gets { Gets form (bytes_ahead (S.left source.old) wire.old)
        (bytes_ahead (S.left source.new) wire.new) (K.written sink.old)
        (K.written sink.new) result }
{
    match http_talk::receive(alloc, form, wire, source, sink) {
        Ok(Some(received)) => Ok(received),
        Ok(None) => Err(SessionEnd::Closed),
        Err(fault) => Err(end_by(fault)),
    }
}
