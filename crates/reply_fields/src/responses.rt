//! What the reply to a transaction says. Its responses may be those of transactions.
ghost use Rattle.std.specs.Prelude.{◌≡◌, ◌-◌, option_map};
ghost use Rattle.serde_json.specs.View.{view, items_view, members_view};
ghost use Rattle.json_model.specs.Faults.{Gives};
ghost use Rattle.json_model.specs.FieldNames as names;
ghost use Rattle.json_model.specs.Fields.{each};
ghost use Rattle.json_model.specs.Replies as spec;

use crate::bodies::{delete_body, put_body, range_body};
use crate::known::once_response_fields;
use crate::records::header_in;
use etcd_types::{Body, List};
use json_fields::{FieldFault, flag, found, list, members_from, wrong_kind};
use json_model::names::*;
use json_model::reply_names::*;
use serde_json::{Map, Value};
use std::alloc::Global;

#[tactic(auto, unfolding(json_model::specs::Replies::within_response))]
fn range_response(alloc: Global, value: &Value) -> Result<Body, FieldFault>
    ensures { Gives (λ body. body) result (spec.within_response spec.range_body names.response_range.0 (view value.now)) }
{
    let object = members_from(alloc, value, RESPONSE_RANGE.plain)?;
    header_in(alloc, object)?;
    Ok(range_body(alloc, object)?)
}

#[tactic(auto, unfolding(json_model::specs::Replies::within_response))]
fn put_response(alloc: Global, value: &Value) -> Result<Body, FieldFault>
    ensures { Gives (λ body. body) result (spec.within_response spec.put_body names.response_put.0 (view value.now)) }
{
    let object = members_from(alloc, value, RESPONSE_PUT.plain)?;
    header_in(alloc, object)?;
    Ok(put_body(alloc, object)?)
}

#[tactic(auto, unfolding(json_model::specs::Replies::within_response))]
fn delete_response(alloc: Global, value: &Value) -> Result<Body, FieldFault>
    ensures { Gives (λ body. body) result (spec.within_response spec.delete_body names.response_delete_range.0 (view value.now)) }
{
    let object = members_from(alloc, value, RESPONSE_DELETE_RANGE.plain)?;
    header_in(alloc, object)?;
    Ok(delete_body(alloc, object)?)
}

#[cycle(txn)]
#[tactic(auto, unfolding(json_model::specs::Replies::within_response))]
fn txn_response(alloc: Global, value: &Value, depth: u64) -> Result<Body, FieldFault>
    ensures { Gives (λ body. body) result (spec.within_response (spec.txn_body depth) names.response_txn.0 (view value.now)) }
{
    let object = members_from(alloc, value, RESPONSE_TXN.plain)?;
    header_in(alloc, object)?;
    Ok(txn_body(alloc, object, depth)?)
}

#[cycle(txn)]
fn the_response(alloc: Global, object: &Map<String, Value>, depth: u64) -> Result<Body, FieldFault>
    ensures { Gives (λ body. body) result (spec.response_among (spec.txn_body depth) (members_view object.now.entries)) }
{
    let range = found(object, &RESPONSE_RANGE);
    let put = found(object, &RESPONSE_PUT);
    let delete = found(object, &RESPONSE_DELETE_RANGE);
    let txn = found(object, &RESPONSE_TXN);
    match (range, put, delete, txn) {
        (Some(value), None, None, None) => range_response(alloc, value),
        (None, Some(value), None, None) => put_response(alloc, value),
        (None, None, Some(value), None) => delete_response(alloc, value),
        (None, None, None, Some(value)) => txn_response(alloc, value, depth),
        _ => Err(wrong_kind(alloc, RESPONSES.plain)),
    }
}

#[cycle(txn)]
#[tactic(auto, unfolding(json_model::specs::Replies::response_by))]
fn response_in(alloc: Global, value: &Value, depth: u64) -> Result<Body, FieldFault>
    ensures { Gives (λ body. body) result (spec.response_by (spec.txn_body depth) (view value.now)) }
{
    let object = members_from(alloc, value, RESPONSES.plain)?;
    once_response_fields(alloc, object)?;
    Ok(the_response(alloc, object, depth)?)
}

#[cycle(txn)]
fn each_response(alloc: Global, items: &[Value], depth: u64) -> Result<List<Body>, FieldFault>
    ensures { Gives (λ bodies. bodies) result (each (spec.response_by (spec.txn_body depth)) (items_view items.now)) }
{
    let mut bodies = List::new(alloc);
    for item in items {
        bodies.push(response_in(alloc, item, depth)?)?;
    }
    Ok(bodies)
}

#[cycle(txn)]
fn responses_in(
    alloc: Global,
    object: &Map<String, Value>,
    depth: u64,
) -> Result<List<Body>, FieldFault>
    ensures { Gives (λ bodies. bodies) result (spec.responses_by (spec.txn_body depth) (members_view object.now.entries)) }
{
    match list(alloc, object, &RESPONSES)? {
        None => Ok(List::new(alloc)),
        Some(items) => each_response(alloc, items, depth),
    }
}

/// The reply to a transaction, in which at most `depth - 1` transactions stand round one another.
#[cycle(txn)]
#[tactic(auto, using(crate::proofs::ReplyLemmas::txn_body_none, crate::proofs::ReplyLemmas::txn_body_more))]
pub(crate) fn txn_body(
    alloc: Global,
    object: &Map<String, Value>,
    depth: u64,
) -> Result<Body, FieldFault>
    ensures { Gives (λ body. body) result (spec.txn_body depth (members_view object.now.entries)) }
{
    if depth == 0 {
        return Err(wrong_kind(alloc, RESPONSES.plain));
    }
    Ok(txn_within(alloc, object, depth - 1)?)
}

#[cycle(txn)]
#[tactic(auto, unfolding(json_model::specs::Replies::txn_body_by))]
fn txn_within(alloc: Global, object: &Map<String, Value>, depth: u64) -> Result<Body, FieldFault>
    ensures { Gives (λ body. body) result (spec.txn_body_by (spec.txn_body depth) (members_view object.now.entries)) }
{
    let succeeded = flag(alloc, object, &SUCCEEDED)?;
    let bodies = responses_in(alloc, object, depth)?;
    Ok(Body::Txn { succeeded, bodies })
}
