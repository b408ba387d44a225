//! Answers by the request that they are to.
ghost use Rattle.std.specs.Prelude.{◌≡◌};
ghost use Rattle.serde_json.specs.Read.{max_depth};
ghost use Rattle.serde_json.specs.View.{members_view};
ghost use Rattle.json_model.specs.Faults.{Gives};
ghost use Rattle.json_model.specs.Answers as spec;

use crate::bodies::{delete_body, put_body, range_body};
use crate::leases::{grant_body, keep_alive_body, leases_body, time_to_live_body};
use crate::records::header_in;
use crate::refusals::refusal_in;
use crate::responses::txn_body;
use etcd_types::{Answer, Body, Reply, Request};
use json_fields::{FieldFault, child, wrong_kind};
use json_model::DEPTH_MAX;
use json_model::names::*;
use json_model::reply_names::*;
use serde_json::{Map, Value};
use std::alloc::Global;

/// The object in `result`, which has to be there.
pub(crate) fn result_in<'a>(
    alloc: Global,
    object: &'a Map<String, Value>,
) -> Result<&'a Map<String, Value>, FieldFault>
    ensures { Gives (λ m. members_view m.now.entries) result (spec.result_in (members_view object.now.entries)) }
{
    match child(alloc, object, &RESULT)? {
        None => Err(wrong_kind(alloc, RESULT.plain)),
        Some(members) => Ok(members),
    }
}

/// What the reply to this request says without its header. A watch has messages in place of a reply.
fn body_in(
    alloc: Global,
    request: &Request,
    object: &Map<String, Value>,
) -> Result<Body, FieldFault>
    ensures { Gives (λ body. body) result (spec.body_in request.now (members_view object.now.entries)) }
{
    match request {
        Request::Range(_) => range_body(alloc, object),
        Request::Put(_) => put_body(alloc, object),
        Request::Delete(_) => delete_body(alloc, object),
        Request::Txn(_) => txn_body(alloc, object, DEPTH_MAX),
        Request::Compact { .. } => Ok(Body::Compact),
        Request::Grant { .. } => grant_body(alloc, object),
        Request::Revoke { .. } => Ok(Body::Revoke),
        Request::KeepAlive { .. } => keep_alive_body(alloc, object),
        Request::TimeToLive { .. } => time_to_live_body(alloc, object),
        Request::Leases => leases_body(alloc, object),
        Request::Watch(_) => Err(wrong_kind(alloc, RESULT.plain)),
    }
}

/// The reply to a keepalive stands in `result`.
fn reply_members<'a>(
    alloc: Global,
    request: &Request,
    object: &'a Map<String, Value>,
) -> Result<&'a Map<String, Value>, FieldFault>
    ensures { Gives (λ m. members_view m.now.entries) result (spec.reply_members request.now (members_view object.now.entries)) }
{
    match request {
        Request::KeepAlive { .. } => result_in(alloc, object),
        _ => Ok(object),
    }
}

#[tactic(auto, unfolding(json_model::specs::Answers::reply_in))]
fn reply_in(
    alloc: Global,
    request: &Request,
    object: &Map<String, Value>,
) -> Result<Reply, FieldFault>
    ensures { Gives (λ reply. reply) result (spec.reply_in request.now (members_view object.now.entries)) }
{
    let members = reply_members(alloc, request, object)?;
    let header = header_in(alloc, members)?;
    let body = body_in(alloc, request, members)?;
    Ok(Reply { header, body })
}

/// The answer to this request that an object is under an HTTP status: a reply where the status is 200, else a refusal.
///
/// The fault says where the object isn't in the mapping: a field of another kind or range, one that stands under both its
/// names, a response within a transaction that isn't exactly one of the four, a refusal without a code.
pub fn answer_in(
    alloc: Global,
    request: &Request,
    status: u16,
    object: &Map<String, Value>,
) -> Result<Answer, FieldFault>
    ensures { Gives (λ answer. answer) result (spec.answer_in request.now status (members_view object.now.entries)) }
{
    if status == 200 {
        Ok(Answer::Done(reply_in(alloc, request, object)?))
    } else {
        Ok(Answer::Refused(refusal_in(alloc, object)?))
    }
}
