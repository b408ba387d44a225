ghost use Rattle.std.specs.Prelude.{◌≡◌, ◌++◌, IfOk, codes};
ghost use Rattle.json_model.specs.Faults.{GivesRequest};
ghost use Rattle.json_model.specs.Mapping.{request_of};
ghost use Rattle.http_talk.specs.Aliases as spec;

use api_request::{decode_call, decode_request};
use etcd_types::{Bytes, NoMemory, Request};
use json_model::{ApiFault, Reading};
use std::alloc::Global;

/// The path for which an alias of a call on leases stands.
fn lease_path(path: &[u8]) -> &[u8]
    ensures { result.now ≡ spec.lease_path path.now }
{
    if path == b"/v3/kv/lease/revoke".as_slice() {
        b"/v3/lease/revoke"
    } else if path == b"/v3/kv/lease/timetolive".as_slice() {
        b"/v3/lease/timetolive"
    } else if path == b"/v3/kv/lease/leases".as_slice() {
        b"/v3/lease/leases"
    } else {
        path
    }
}

fn decode_lease(
    alloc: Global,
    reading: Reading,
    path: &[u8],
    body: &[u8],
) -> Result<Request, ApiFault>
    ensures { GivesRequest (λ request. request) result
        (request_of reading (spec.lease_path path.now) body.now) }
{
    match reading {
        Reading::Client => decode_request(alloc, lease_path(path), body),
        Reading::Call => decode_call(alloc, lease_path(path), body),
    }
}

/// This path below `/v3`.
fn below_v3(alloc: Global, rest: &[u8]) -> Result<Bytes, NoMemory>
    ensures { IfOk result (λ path. path ≡ codes "/v3/" ++ rest.now) }
{
    let mut path = Vec::from_slice(alloc, b"/v3/")?;
    path.extend_from_slice(rest)?;
    Ok(Bytes::from_vec(path))
}

/// The path for which one below `/v3beta` stands.
pub(crate) fn v3_path(alloc: Global, path: &[u8]) -> Result<Bytes, NoMemory>
    ensures { IfOk result (λ whole. whole ≡ spec.v3_path path.now) }
{
    match path.strip_prefix(b"/v3beta/".as_slice()) {
        Some(rest) => Ok(below_v3(alloc, rest)?),
        None => Ok(Bytes::from_slice(alloc, path)?),
    }
}

/// The request that a path, or the one for which it stands, and a body are.
pub(crate) fn decode(
    alloc: Global,
    reading: Reading,
    path: &[u8],
    body: &[u8],
) -> Result<Request, ApiFault>
    ensures { GivesRequest (λ request. request) result
        (request_of reading (spec.plain_path path.now) body.now) }
{
    match path.strip_prefix(b"/v3beta/".as_slice()) {
        Some(rest) => match below_v3(alloc, rest) {
            Ok(plain) => decode_lease(alloc, reading, plain.as_slice(), body),
            Err(NoMemory) => Err(ApiFault::NoMemory),
        },
        None => decode_lease(alloc, reading, path, body),
    }
}
