ghost use Rattle.std.specs.Prelude.{◌≡◌, IfOk};
ghost use Rattle.world_model.specs.PostRefusals as spec;

use etcd_types::code::{INVALID_ARGUMENT, NOT_FOUND, UNIMPLEMENTED};
use etcd_types::{NoMemory, Refusal};
use json_model::ApiFault;
use std::alloc::Global;

fn code_of(fault: &ApiFault) -> u32
    ensures { result ≡ spec.post_code fault.now }
{
    match fault {
        ApiFault::NoSuchPath => NOT_FOUND,
        ApiFault::Unsupported(_) => UNIMPLEMENTED,
        ApiFault::NotJson | ApiFault::Field(_) | ApiFault::NoMemory => INVALID_ARGUMENT,
    }
}

/// How a proxy refuses what was posted and is no request.
pub fn post_refusal(alloc: Global, fault: &ApiFault) -> Result<Refusal, NoMemory>
    ensures { IfOk result (λ refusal. refusal ≡ spec.post_refusal fault.now) }
{
    Ok(Refusal {
        code: code_of(fault),
        text: fault.words(alloc)?,
    })
}
