ghost use Rattle.std.specs.Prelude.{◌≡◌};
ghost use Rattle.server_model.specs.Dialog.{Breaking, IsUntold, end_of};
ghost use Rattle.server_model.specs.Numbers.{IsElse};
ghost use Rattle.http_talk.specs.Telling.{IsOfWriting};
ghost use Rattle.server_model.specs.Exchanges.{end_by};
ghost use Rattle.proxy_server.specs.Causes.{IsOfSteps, IsOfTakes, IsOfAsking};

use core_model::StepFault;
use http_wire::WireFault;
use server_model::{SessionEnd, TurnFault};

/// How a connection ends by this fault of its wire.
pub(crate) fn end_by(fault: WireFault) -> SessionEnd
    ensures is { result ≡ end_by fault }
    ensures untold { IsOfWriting fault → IsUntold result }
    ensures takes { IsOfWriting fault → IsOfTakes result }
    ensures asking { IsOfWriting fault → IsOfAsking result }
    ensures breaking { IsOfWriting fault → Breaking result }
    ensures other { IsElse result }
    ensures reading { result ≡ SessionEnd.ReadFault → fault ≡ WireFault.ReadFault }
    ensures writing { result ≡ SessionEnd.WriteFault → fault ≡ WireFault.WriteFault }
{
    match fault {
        WireFault::ReadFault => SessionEnd::ReadFault,
        WireFault::WriteFault => SessionEnd::WriteFault,
        WireFault::NoMemory => SessionEnd::NoMemory,
        WireFault::BadHead
        | WireFault::HeadTooLong
        | WireFault::BodyTooLong
        | WireFault::BadChunk
        | WireFault::EndedEarly => SessionEnd::BadRequest(fault),
    }
}

/// How a connection ends by this fault of a step.
pub(crate) fn end_of(fault: TurnFault) -> SessionEnd
    ensures is { result ≡ end_of fault }
    ensures steps { IsOfSteps result }
    ensures takes { IsOfTakes result }
    ensures asking { IsOfAsking result }
{
    match fault {
        TurnFault::Core(StepFault::NoSuchTicket(ticket)) => SessionEnd::TicketTaken(ticket),
        TurnFault::Core(StepFault::NoMemory) => SessionEnd::NoMemory,
        TurnFault::Worn | TurnFault::Core(_) => SessionEnd::Worn,
    }
}
