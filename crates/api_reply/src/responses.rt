//! The fields of a reply by its body, and the responses within a transaction as they are written.
ghost use Rattle.std.specs.Prelude.{◌≡◌, IfOk, OnOk, ◌∷◌, []};
ghost use Rattle.serde_json.specs.View.{view, items_view, members_view};
ghost use Rattle.json_model.specs.FieldNames as names;
ghost use Rattle.json_model.specs.Written.{with_fields, items_of};
ghost use Rattle.json_model.specs.WrittenReplies as spec;

use crate::bodies::{
    put_delete_fields, put_lease_fields, put_leases_fields, put_put_fields, put_range_fields,
    put_time_to_live_fields,
};
use etcd_types::{Body, Kv, List, NoMemory};
use json_fields::{object_within, put_flag, put_list};
use serde_json::{Map, Value};
use std::alloc::Global;

#[tactic(auto, unfolding(json_model::specs::WrittenReplies::response_written))]
fn range_response(alloc: Global, count: u64, more: bool, kvs: &List<Kv>) -> Result<Value, NoMemory>
    ensures { IfOk result (λ v. view v ≡ spec.response_written names.response_range (spec.range_fields_of count more kvs.now)) }
{
    let mut fields = Map::new(alloc);
    put_range_fields(alloc, &mut fields, count, more, kvs)?;
    Ok(object_within(alloc, "response_range", fields)?)
}

#[tactic(auto, unfolding(json_model::specs::WrittenReplies::response_written))]
fn put_response(alloc: Global, prev: &Option<Kv>) -> Result<Value, NoMemory>
    ensures { IfOk result (λ v. view v ≡ spec.response_written names.response_put (spec.put_fields_of prev.now)) }
{
    let mut fields = Map::new(alloc);
    put_put_fields(alloc, &mut fields, prev)?;
    Ok(object_within(alloc, "response_put", fields)?)
}

#[tactic(auto, unfolding(json_model::specs::WrittenReplies::response_written))]
fn delete_response(alloc: Global, deleted: u64, prevs: &List<Kv>) -> Result<Value, NoMemory>
    ensures { IfOk result (λ v. view v ≡ spec.response_written names.response_delete_range (spec.delete_fields_of deleted prevs.now)) }
{
    let mut fields = Map::new(alloc);
    put_delete_fields(alloc, &mut fields, deleted, prevs)?;
    Ok(object_within(alloc, "response_delete_range", fields)?)
}

#[tactic(auto, unfolding(json_model::specs::WrittenReplies::txn_fields_of))]
fn put_txn_fields(
    alloc: Global,
    object: &mut Map<String, Value>,
    succeeded: bool,
    responses: Vec<Value>,
) -> Result<(), NoMemory>
    ensures { OnOk result (members_view object.new.entries ≡ with_fields (members_view object.old.entries) (spec.txn_fields_of succeeded (items_view responses.items))) }
{
    put_flag(alloc, object, "succeeded", succeeded)?;
    Ok(put_list(alloc, object, "responses", responses)?)
}

#[tactic(auto, unfolding(json_model::specs::WrittenReplies::response_written))]
fn txn_response(alloc: Global, succeeded: bool, responses: Vec<Value>) -> Result<Value, NoMemory>
    ensures { IfOk result (λ v. view v ≡ spec.response_written names.response_txn (spec.txn_fields_of succeeded (items_view responses.items))) }
{
    let mut fields = Map::new(alloc);
    put_txn_fields(alloc, &mut fields, succeeded, responses)?;
    Ok(object_within(alloc, "response_txn", fields)?)
}

/// A body within a transaction, without a header. What isn't a range, a put, a delete or a transaction stands in none.
#[cycle(response)]
fn response_value(alloc: Global, body: &Body) -> Result<Value, NoMemory>
    ensures { IfOk result (λ v. view v ≡ spec.response_value body.now) }
{
    match body {
        Body::Range { count, more, kvs } => Ok(range_response(alloc, *count, *more, kvs)?),
        Body::Put { prev } => Ok(put_response(alloc, prev)?),
        Body::Delete { deleted, prevs } => Ok(delete_response(alloc, *deleted, prevs)?),
        Body::Txn { succeeded, bodies } => {
            let responses = response_values(alloc, bodies)?;
            Ok(txn_response(alloc, *succeeded, responses)?)
        }
        _ => Ok(Value::Object(Map::new(alloc))),
    }
}

#[cycle(response)]
fn response_values(alloc: Global, bodies: &List<Body>) -> Result<Vec<Value>, NoMemory>
    ensures { IfOk result (λ vs. items_view vs.items ≡ items_of spec.response_value bodies.now) }
{
    let mut values = Vec::new(alloc);
    for body in bodies.as_slice() {
        values.push(response_value(alloc, body)?)?;
    }
    Ok(values)
}

/// Adds the fields of a reply's body.
pub(crate) fn put_body_fields(
    alloc: Global,
    object: &mut Map<String, Value>,
    body: &Body,
) -> Result<(), NoMemory>
    ensures { OnOk result (members_view object.new.entries ≡ with_fields (members_view object.old.entries) (spec.body_fields body.now)) }
{
    match body {
        Body::Range { count, more, kvs } => {
            Ok(put_range_fields(alloc, object, *count, *more, kvs)?)
        }
        Body::Put { prev } => Ok(put_put_fields(alloc, object, prev)?),
        Body::Delete { deleted, prevs } => {
            Ok(put_delete_fields(alloc, object, *deleted, prevs)?)
        }
        Body::Txn { succeeded, bodies } => {
            let responses = response_values(alloc, bodies)?;
            Ok(put_txn_fields(alloc, object, *succeeded, responses)?)
        }
        Body::Compact => Ok(()),
        Body::Grant { lease, ttl } => Ok(put_lease_fields(alloc, object, *lease, *ttl)?),
        Body::Revoke => Ok(()),
        Body::KeepAlive { lease, ttl } => Ok(put_lease_fields(alloc, object, *lease, *ttl)?),
        Body::TimeToLive {
            lease,
            ttl,
            granted,
            keys,
        } => Ok(put_time_to_live_fields(alloc, object, *lease, *ttl, *granted, keys)?),
        Body::Leases { leases } => Ok(put_leases_fields(alloc, object, leases)?),
    }
}
