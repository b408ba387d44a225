//! Which fields of an object may not stand under both their names, one function for each kind of object.
ghost use Rattle.serde_json.specs.View.{members_view};
ghost use Rattle.json_model.specs.Faults.{Gives};
ghost use Rattle.json_model.specs.Known as spec;
ghost use Rattle.json_model.specs.Tables as tables;

use json_fields::{FieldFault, once};
use serde_json::{Map, Value};
use std::alloc::Global;

#[tactic(auto, unfolding(json_model::specs::Tables::header_fields))]
pub(crate) fn once_header_fields(
    alloc: Global,
    object: &Map<String, Value>,
) -> Result<(), FieldFault>
    ensures { Gives (λ n. n) result (spec.once (members_view object.now.entries) tables.header_fields) }
{
    Ok(once(alloc, object, "cluster_id member_id raft_term")?)
}

#[tactic(auto, unfolding(json_model::specs::Tables::record_fields))]
pub(crate) fn once_record_fields(
    alloc: Global,
    object: &Map<String, Value>,
) -> Result<(), FieldFault>
    ensures { Gives (λ n. n) result (spec.once (members_view object.now.entries) tables.record_fields) }
{
    Ok(once(alloc, object, "create_revision mod_revision")?)
}

#[tactic(auto, unfolding(json_model::specs::Tables::put_reply_fields))]
pub(crate) fn once_put_reply_fields(
    alloc: Global,
    object: &Map<String, Value>,
) -> Result<(), FieldFault>
    ensures { Gives (λ n. n) result (spec.once (members_view object.now.entries) tables.put_reply_fields) }
{
    Ok(once(alloc, object, "prev_kv")?)
}

#[tactic(auto, unfolding(json_model::specs::Tables::delete_reply_fields))]
pub(crate) fn once_delete_reply_fields(
    alloc: Global,
    object: &Map<String, Value>,
) -> Result<(), FieldFault>
    ensures { Gives (λ n. n) result (spec.once (members_view object.now.entries) tables.delete_reply_fields) }
{
    Ok(once(alloc, object, "prev_kvs")?)
}

#[tactic(auto, unfolding(json_model::specs::Tables::response_fields))]
pub(crate) fn once_response_fields(
    alloc: Global,
    object: &Map<String, Value>,
) -> Result<(), FieldFault>
    ensures { Gives (λ n. n) result (spec.once (members_view object.now.entries) tables.response_fields) }
{
    Ok(once(
        alloc,
        object,
        "response_range response_put response_delete_range response_txn",
    )?)
}

#[tactic(auto, unfolding(json_model::specs::Tables::event_fields))]
pub(crate) fn once_event_fields(
    alloc: Global,
    object: &Map<String, Value>,
) -> Result<(), FieldFault>
    ensures { Gives (λ n. n) result (spec.once (members_view object.now.entries) tables.event_fields) }
{
    Ok(once(alloc, object, "prev_kv")?)
}

#[tactic(auto, unfolding(json_model::specs::Tables::message_fields))]
pub(crate) fn once_message_fields(
    alloc: Global,
    object: &Map<String, Value>,
) -> Result<(), FieldFault>
    ensures { Gives (λ n. n) result (spec.once (members_view object.now.entries) tables.message_fields) }
{
    Ok(once(alloc, object, "compact_revision")?)
}
