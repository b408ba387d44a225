ghost use Rattle.std.specs.Prelude.{◌≡◌, IfOk, codes, nat_eq};
ghost use Rattle.std.specs.Cmp.Lexicographic.{pointwise};
ghost use Rattle.http_talk.specs.Requests as spec;

use crate::aliases::decode;
use crate::received::Received;
use crate::refused::Refused;
use etcd_types::{NoMemory, Request};
use http::Method;
use json_model::{ApiFault, Reading};
use std::alloc::Global;

pub(crate) fn is_post(method: &Method) -> bool
    ensures { result ≡ pointwise nat_eq method.now (codes "POST") }
{
    method.as_str() == "POST"
}

/// What is asked, or why it is refused.
#[tactic(auto, unfolding(crate::specs::Requests::asked_of))]
#[inline(never)]
pub fn asked(
    alloc: Global,
    reading: Reading,
    received: &Received,
) -> Result<Result<Request, Refused>, NoMemory>
    ensures { IfOk result (λ asked. asked
        ≡ spec.asked_of reading received.now.head received.now.body) }
{
    if received.head.encoded {
        return Ok(Err(Refused::Encoding));
    }
    if !is_post(&received.head.method) {
        return Ok(Err(Refused::Method));
    }
    let path = received.head.path.as_slice();
    match decode(alloc, reading, path, received.body.as_slice()) {
        Ok(request) => Ok(Ok(request)),
        Err(ApiFault::NoMemory) => Err(NoMemory),
        Err(fault) => Ok(Err(Refused::Request(fault))),
    }
}
