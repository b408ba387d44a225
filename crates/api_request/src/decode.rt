ghost use Rattle.serde_json.specs.View.{members_view};
ghost use Rattle.serde_json.specs.Read.{max_depth};
ghost use Rattle.json_model.specs.declared.extra.Reading.TheVariants.{Client, Call};
ghost use Rattle.json_model.specs.Faults.{Gives, GivesRequest, of_request};
ghost use Rattle.json_model.specs.Mapping as spec;

use crate::paths::path_of;
use crate::plain::plain_request;
use etcd_types::{Bytes, NoMemory, Request};
use json_fields::{FieldFault, object_of};
use json_model::{ApiFault, DEPTH_MAX, Extra, Path, Reading};
use request_fields::{
    compact_in, delete_in, extra_in, extra_name, grant_in, lease_in, leases_in, put_in, range_in,
    time_to_live_in, txn_in, watch_in,
};
use serde_json::{Map, Value};
use std::alloc::Global;

fn request_in(alloc: Global, path: Path, object: &Map<String, Value>) -> Result<Request, FieldFault>
    ensures { Gives (λ request. request) result (spec.request_in max_depth path (members_view object.now.entries)) }
{
    match path {
        Path::Range => Ok(Request::Range(range_in(alloc, object)?)),
        Path::Put => Ok(Request::Put(put_in(alloc, object)?)),
        Path::DeleteRange => Ok(Request::Delete(delete_in(alloc, object)?)),
        Path::Txn => Ok(Request::Txn(txn_in(alloc, object, DEPTH_MAX)?)),
        Path::Compaction => Ok(compact_in(alloc, object)?),
        Path::LeaseGrant => Ok(grant_in(alloc, object)?),
        Path::LeaseRevoke => Ok(Request::Revoke {
            lease: lease_in(alloc, object)?,
        }),
        Path::LeaseKeepAlive => Ok(Request::KeepAlive {
            lease: lease_in(alloc, object)?,
        }),
        Path::LeaseTimeToLive => Ok(time_to_live_in(alloc, object)?),
        Path::LeaseLeases => Ok(leases_in(alloc, object)?),
        Path::Watch => Ok(Request::Watch(watch_in(alloc, object)?)),
    }
}

/// The request without a look at what isn't served.
#[inline(never)]
fn any_request(alloc: Global, path: Path, object: &Map<String, Value>) -> Result<Request, ApiFault>
    ensures { GivesRequest (λ request. request) result (of_request (spec.request_in max_depth path (members_view object.now.entries))) }
{
    match request_in(alloc, path, object) {
        Ok(request) => Ok(request),
        Err(fault) => Err(ApiFault::from(fault)),
    }
}

/// The members of the body's object. An empty body is an object without members.
#[inline(never)]
fn body_members(alloc: Global, body: &[u8]) -> Result<Map<String, Value>, ApiFault>
    ensures { GivesRequest (λ m. members_view m.entries) result (spec.or_not_json (spec.body_members body.now)) }
{
    if body.is_empty() {
        return Ok(Map::new(alloc));
    }
    match object_of(alloc, body) {
        Ok(Some(members)) => Ok(members),
        Ok(None) => Err(ApiFault::NotJson),
        Err(NoMemory) => Err(ApiFault::NoMemory),
    }
}

#[inline(never)]
fn served(alloc: Global, extra: Option<Extra>, request: Request) -> Result<Request, ApiFault>
    ensures { GivesRequest (λ request. request) result (spec.served extra request) }
{
    match extra {
        None => Ok(request),
        Some(extra) => match Bytes::from_slice(alloc, extra_name(extra).as_bytes()) {
            Ok(name) => Err(ApiFault::Unsupported(name)),
            Err(NoMemory) => Err(ApiFault::NoMemory),
        },
    }
}

#[tactic(auto, unfolding(json_model::specs::Mapping::request_of))]
fn decode(alloc: Global, reading: Reading, path: &[u8], body: &[u8]) -> Result<Request, ApiFault>
    ensures { GivesRequest (λ request. request) result (spec.request_of reading path.now body.now) }
{
    let path = path_of(path)?;
    let members = body_members(alloc, body)?;
    let request = any_request(alloc, path, &members)?;
    let extra = extra_in(reading, path, &members, DEPTH_MAX);
    Ok(served(alloc, extra, request)?)
}

/// The request of a client: the path is one of etcd's JSON gateway, the body one JSON object, or nothing for an object
/// without members.
///
/// The fault is the first in this order: `NoSuchPath`; `NotJson`; `Field`, in each object first a key that names no field
/// or a field that is named twice, in byte order of the keys, then the fields in the order of the API's tables, each
/// object within at its place; last `Unsupported`, with the field's name, where the request asks what isn't served.
pub fn decode_request(alloc: Global, path: &[u8], body: &[u8]) -> Result<Request, ApiFault>
    ensures { GivesRequest (λ request. request) result (spec.request_of Client path.now body.now) }
{
    match plain_request(alloc, path, body) {
        Some(request) => Ok(request),
        None => decode(alloc, Reading::Client, path, body),
    }
}

/// The request of a proxy to a store: as `decode_request`, but that `ignore_lease` and transactions within transactions
/// are read.
pub fn decode_call(alloc: Global, path: &[u8], body: &[u8]) -> Result<Request, ApiFault>
    ensures { GivesRequest (λ request. request) result (spec.request_of Call path.now body.now) }
{
    decode(alloc, Reading::Call, path, body)
}
