ghost use Rattle.std.specs.Prelude.{◌≡◌, IfOk};
ghost use Rattle.proxy_model.specs.Prefixes.{leasing_range};
ghost use Rattle.core_model.specs.Refusals.{refusal_of, reserved_range};

use crate::reserved::touches;
use crate::writes::writes_too_much;
use client_requests::{lacks_key, names_session, reserved_lease, unserved, unsupported};
use etcd_types::code::PERMISSION_DENIED;
use etcd_types::{Bytes, KeyRange, NoMemory, Refusal, Request};
use std::alloc::Global;
use store_refusals::{key_not_provided, too_many_operations};

/// Why a proxy with this leasing prefix, whose leasing range is handed in, refuses the request, if it does: a field that isn't
/// served, an empty key, a key of the leasing range, a lease number that is reserved for sessions, more ranges than one transaction
/// can compare, in this order. An empty prefix stands for leasing being off. `NoMemory` where memory was wanting.
pub fn refusal_of(
    alloc: Global,
    prefix: &Bytes,
    leasing: &KeyRange,
    request: &Request,
) -> Result<Option<Refusal>, NoMemory>
    requires { leasing.now ≡ leasing_range prefix.now }
    ensures { IfOk result (λ refusal. refusal ≡ refusal_of prefix.now request.now) }
{
    if let Some(field) = unserved(request) {
        return Ok(Some(unsupported(alloc, field)?));
    }
    if lacks_key(request) {
        return Ok(Some(key_not_provided(alloc)?));
    }
    if !prefix.is_empty() && touches(leasing, request) {
        return Ok(Some(reserved_range(alloc)?));
    }
    if names_session(request) {
        return Ok(Some(reserved_lease(alloc)?));
    }
    if !prefix.is_empty() && writes_too_much(alloc, request)? {
        return Ok(Some(too_many_operations(alloc)?));
    }
    Ok(None)
}

fn reserved_range(alloc: Global) -> Result<Refusal, NoMemory>
    ensures { IfOk result (λ refusal. refusal ≡ reserved_range) }
{
    Ok(Refusal {
        code: PERMISSION_DENIED,
        text: Bytes::from_slice(alloc, b"proxy: key is in the leasing range")?,
    })
}
