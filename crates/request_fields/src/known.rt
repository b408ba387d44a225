//! Which fields an object may have, one function for each kind of object.
ghost use Rattle.serde_json.specs.View.{members_view};
ghost use Rattle.json_model.specs.Faults.{Gives};
ghost use Rattle.json_model.specs.Known as spec;
ghost use Rattle.json_model.specs.Tables as tables;

use json_fields::{FieldFault, only};
use serde_json::{Map, Value};
use std::alloc::Global;

#[tactic(auto, unfolding(json_model::specs::Tables::range_fields))]
pub(crate) fn only_range_fields(
    alloc: Global,
    object: &Map<String, Value>,
) -> Result<(), FieldFault>
    ensures { Gives (λ n. n) result (spec.only (members_view object.now.entries) tables.range_fields) }
{
    Ok(only(
        alloc,
        object,
        "key range_end limit revision sort_order sort_target serializable keys_only count_only min_mod_revision max_mod_revision min_create_revision max_create_revision",
    )?)
}

#[tactic(auto, unfolding(json_model::specs::Tables::put_fields))]
pub(crate) fn only_put_fields(alloc: Global, object: &Map<String, Value>) -> Result<(), FieldFault>
    ensures { Gives (λ n. n) result (spec.only (members_view object.now.entries) tables.put_fields) }
{
    Ok(only(
        alloc,
        object,
        "key value lease prev_kv ignore_value ignore_lease",
    )?)
}

#[tactic(auto, unfolding(json_model::specs::Tables::delete_fields))]
pub(crate) fn only_delete_fields(
    alloc: Global,
    object: &Map<String, Value>,
) -> Result<(), FieldFault>
    ensures { Gives (λ n. n) result (spec.only (members_view object.now.entries) tables.delete_fields) }
{
    Ok(only(alloc, object, "key range_end prev_kv")?)
}

#[tactic(auto, unfolding(json_model::specs::Tables::compaction_fields))]
pub(crate) fn only_compaction_fields(
    alloc: Global,
    object: &Map<String, Value>,
) -> Result<(), FieldFault>
    ensures { Gives (λ n. n) result (spec.only (members_view object.now.entries) tables.compaction_fields) }
{
    Ok(only(alloc, object, "revision physical")?)
}

#[tactic(auto, unfolding(json_model::specs::Tables::grant_fields))]
pub(crate) fn only_grant_fields(
    alloc: Global,
    object: &Map<String, Value>,
) -> Result<(), FieldFault>
    ensures { Gives (λ n. n) result (spec.only (members_view object.now.entries) tables.grant_fields) }
{
    Ok(only(alloc, object, "TTL ID")?)
}

#[tactic(auto, unfolding(json_model::specs::Tables::lease_fields))]
pub(crate) fn only_lease_fields(
    alloc: Global,
    object: &Map<String, Value>,
) -> Result<(), FieldFault>
    ensures { Gives (λ n. n) result (spec.only (members_view object.now.entries) tables.lease_fields) }
{
    Ok(only(alloc, object, "ID")?)
}

#[tactic(auto, unfolding(json_model::specs::Tables::time_to_live_fields))]
pub(crate) fn only_time_to_live_fields(
    alloc: Global,
    object: &Map<String, Value>,
) -> Result<(), FieldFault>
    ensures { Gives (λ n. n) result (spec.only (members_view object.now.entries) tables.time_to_live_fields) }
{
    Ok(only(alloc, object, "ID keys")?)
}

#[tactic(auto, unfolding(json_model::specs::Tables::txn_fields))]
pub(crate) fn only_txn_fields(alloc: Global, object: &Map<String, Value>) -> Result<(), FieldFault>
    ensures { Gives (λ n. n) result (spec.only (members_view object.now.entries) tables.txn_fields) }
{
    Ok(only(alloc, object, "compare success failure")?)
}

#[tactic(auto, unfolding(json_model::specs::Tables::compare_fields))]
pub(crate) fn only_compare_fields(
    alloc: Global,
    object: &Map<String, Value>,
) -> Result<(), FieldFault>
    ensures { Gives (λ n. n) result (spec.only (members_view object.now.entries) tables.compare_fields) }
{
    Ok(only(
        alloc,
        object,
        "result target key version create_revision mod_revision value lease range_end",
    )?)
}

#[tactic(auto, unfolding(json_model::specs::Tables::operation_fields))]
pub(crate) fn only_operation_fields(
    alloc: Global,
    object: &Map<String, Value>,
) -> Result<(), FieldFault>
    ensures { Gives (λ n. n) result (spec.only (members_view object.now.entries) tables.operation_fields) }
{
    Ok(only(
        alloc,
        object,
        "request_range request_put request_delete_range request_txn",
    )?)
}

#[tactic(auto, unfolding(json_model::specs::Tables::watch_fields))]
pub(crate) fn only_watch_fields(
    alloc: Global,
    object: &Map<String, Value>,
) -> Result<(), FieldFault>
    ensures { Gives (λ n. n) result (spec.only (members_view object.now.entries) tables.watch_fields) }
{
    Ok(only(
        alloc,
        object,
        "create_request cancel_request progress_request",
    )?)
}

#[tactic(auto, unfolding(json_model::specs::Tables::create_fields))]
pub(crate) fn only_create_fields(
    alloc: Global,
    object: &Map<String, Value>,
) -> Result<(), FieldFault>
    ensures { Gives (λ n. n) result (spec.only (members_view object.now.entries) tables.create_fields) }
{
    Ok(only(
        alloc,
        object,
        "key range_end start_revision progress_notify filters prev_kv watch_id fragment",
    )?)
}

#[tactic(auto, unfolding(json_model::specs::Tables::no_fields))]
pub(crate) fn only_no_fields(alloc: Global, object: &Map<String, Value>) -> Result<(), FieldFault>
    ensures { Gives (λ n. n) result (spec.only (members_view object.now.entries) tables.no_fields) }
{
    Ok(only(alloc, object, "")?)
}
