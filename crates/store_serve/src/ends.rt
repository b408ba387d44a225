ghost use Rattle.std.specs.Prelude.{◌≡◌};
ghost use Rattle.http_talk.specs.Telling.{IsOfWriting};
ghost use Rattle.shop_dialog.specs.Watching.{Breaking, IsUntold, end_of_step};
ghost use Rattle.shop_dialog.specs.Dialog.{end_by};
ghost use Rattle.store_serve.specs.Missing.{end_of};

use http_wire::WireFault;
use shop_dialog::StoreEnd;
use shop_model::StoreStepFault;
use turn_hub::HubFault;

/// How a connection ends by this fault of its wire.
pub(crate) fn end_by(fault: WireFault) -> StoreEnd
    ensures is { result ≡ end_by fault }
    ensures untold { IsOfWriting fault → IsUntold result }
    ensures breaking { IsOfWriting fault → Breaking result }
    ensures reading { result ≡ StoreEnd.ReadFault → fault ≡ WireFault.ReadFault }
    ensures writing { result ≡ StoreEnd.WriteFault → fault ≡ WireFault.WriteFault }
{
    match fault {
        WireFault::ReadFault => StoreEnd::ReadFault,
        WireFault::WriteFault => StoreEnd::WriteFault,
        WireFault::NoMemory => StoreEnd::NoMemory,
        WireFault::BadHead
        | WireFault::HeadTooLong
        | WireFault::BodyTooLong
        | WireFault::BadChunk
        | WireFault::EndedEarly => StoreEnd::BadRequest(fault),
    }
}

/// How a connection ends by this fault of a step.
pub(crate) fn end_of(fault: HubFault<StoreStepFault>) -> StoreEnd
    ensures is { result ≡ end_of fault }
    ensures breaking { Breaking result }
    ensures reading { result ≡ StoreEnd.ReadFault → ⊥ }
    ensures writing { result ≡ StoreEnd.WriteFault → ⊥ }
{
    match fault {
        HubFault::Machine(StoreStepFault::NoMemory) => StoreEnd::NoMemory,
        HubFault::Worn | HubFault::Machine(_) => StoreEnd::Worn,
    }
}
