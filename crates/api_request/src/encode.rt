ghost use Rattle.std.specs.Prelude.{◌≡◌, IfOk};
ghost use Rattle.serde_json.specs.View.{members_view};
ghost use Rattle.json_model.specs.Paths.{path_text};
ghost use Rattle.json_model.specs.Written.{members_of};
ghost use Rattle.json_model.specs.WrittenRequests as spec;

use crate::fields::{
    compact_fields, delete_fields, grant_fields, lease_fields, put_fields, range_fields,
    time_to_live_fields, watch_fields,
};
use crate::paths::path_text;
use crate::transactions::txn_fields;
use direct_json::{put_request_text, range_request_text};
use etcd_types::{Bytes, NoMemory, Request};
use json_fields::object_text;
use json_model::Path;
use serde_json::{Map, Value};
use std::alloc::Global;

fn request_path(request: &Request) -> Path
    ensures { result ≡ spec.request_path request.now }
{
    match request {
        Request::Range(_) => Path::Range,
        Request::Put(_) => Path::Put,
        Request::Delete(_) => Path::DeleteRange,
        Request::Txn(_) => Path::Txn,
        Request::Compact { .. } => Path::Compaction,
        Request::Grant { .. } => Path::LeaseGrant,
        Request::Revoke { .. } => Path::LeaseRevoke,
        Request::KeepAlive { .. } => Path::LeaseKeepAlive,
        Request::TimeToLive { .. } => Path::LeaseTimeToLive,
        Request::Leases => Path::LeaseLeases,
        Request::Watch(_) => Path::Watch,
    }
}

fn request_fields(alloc: Global, request: &Request) -> Result<Map<String, Value>, NoMemory>
    ensures { IfOk result (λ m. members_view m.entries ≡ members_of (spec.request_written request.now)) }
{
    match request {
        Request::Range(ask) => Ok(range_fields(alloc, ask)?),
        Request::Put(ask) => Ok(put_fields(alloc, ask)?),
        Request::Delete(ask) => Ok(delete_fields(alloc, ask)?),
        Request::Txn(ask) => Ok(txn_fields(alloc, ask)?),
        Request::Compact { revision, physical } => Ok(compact_fields(alloc, *revision, *physical)?),
        Request::Grant { ttl, lease } => Ok(grant_fields(alloc, *ttl, *lease)?),
        Request::Revoke { lease } => Ok(lease_fields(alloc, *lease)?),
        Request::KeepAlive { lease } => Ok(lease_fields(alloc, *lease)?),
        Request::TimeToLive { lease, keys } => Ok(time_to_live_fields(alloc, *lease, *keys)?),
        Request::Leases => Ok(Map::new(alloc)),
        Request::Watch(ask) => Ok(watch_fields(alloc, ask)?),
    }
}

/// A request by its object.
#[tactic(auto, using(crate::proofs::NoFloats::request_no_float))]
fn object_request_text(alloc: Global, request: &Request) -> Result<Bytes, NoMemory>
    ensures { IfOk result (λ text. text ≡ spec.request_text request.now) }
{
    let fields = request_fields(alloc, request)?;
    Ok(object_text(alloc, fields)?)
}

/// A put and a range that isn't to be sorted are written without an object, since most of what is passed on is one of them.
fn request_text(alloc: Global, request: &Request) -> Result<Bytes, NoMemory>
    ensures { IfOk result (λ text. text ≡ spec.request_text request.now) }
{
    match request {
        Request::Put(ask) => Ok(put_request_text(alloc, ask)?),
        Request::Range(ask) if ask.sort.order == 0 && ask.sort.target == 0 => {
            Ok(range_request_text(alloc, ask)?)
        }
        _ => Ok(object_request_text(alloc, request)?),
    }
}

/// The path and the body of a call that asks for this request.
///
/// The body is one JSON object without spaces: each field under its plain name, names in byte order, defaults left out,
/// numbers as decimal text, bytes as base64 text in the standard alphabet with padding, enums by name. Also
/// `ignore_lease` and transactions within transactions are written, which `decode_call` reads and `decode_request` doesn't
/// serve.
pub fn encode_request(alloc: Global, request: &Request) -> Result<(Bytes, Bytes), NoMemory>
    ensures path { IfOk result (λ call. call.0 ≡ path_text (spec.request_path request.now)) }
    ensures body { IfOk result (λ call. call.1 ≡ spec.request_text request.now) }
{
    let path = path_text(request_path(request));
    let path = Bytes::from_slice(alloc, path.as_bytes())?;
    let body = request_text(alloc, request)?;
    Ok((path, body))
}
