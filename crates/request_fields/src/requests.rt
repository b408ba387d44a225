//! What the fields of a request say, but for transactions and watches.
ghost use Rattle.serde_json.specs.View.{members_view};
ghost use Rattle.json_model.specs.Faults.{Gives};
ghost use Rattle.json_model.specs.Requests as spec;

use crate::known::{
    only_compaction_fields, only_delete_fields, only_grant_fields, only_lease_fields,
    only_no_fields, only_put_fields, only_range_fields, only_time_to_live_fields,
};
use etcd_types::{DeleteAsk, KeyRange, PutAsk, RangeAsk, Request, Sort};
use json_fields::{FieldFault, bytes, choice, flag, number};
use json_model::names::*;
use serde_json::{Map, Value};
use std::alloc::Global;

#[tactic(auto, unfolding(json_model::specs::Requests::key_range_in))]
pub(crate) fn key_range_in(
    alloc: Global,
    object: &Map<String, Value>,
) -> Result<KeyRange, FieldFault>
    ensures { Gives (λ range. range) result (spec.key_range_in (members_view object.now.entries)) }
{
    let key = bytes(alloc, object, &KEY)?;
    let end = bytes(alloc, object, &RANGE_END)?;
    Ok(KeyRange { key, end })
}

/// The limit and the revision.
#[tactic(auto, unfolding(json_model::specs::Requests::limits_in))]
fn limits_in(alloc: Global, object: &Map<String, Value>) -> Result<(u64, u64), FieldFault>
    ensures { Gives (λ x. (x.0, x.1)) result (spec.limits_in (members_view object.now.entries)) }
{
    let limit = number(alloc, object, &LIMIT)?;
    let revision = number(alloc, object, &REVISION)?;
    Ok((limit, revision))
}

/// The order and the target of sorting.
#[tactic(auto, unfolding(json_model::specs::Requests::sorting_in))]
fn sorting_in(alloc: Global, object: &Map<String, Value>) -> Result<(u8, u8), FieldFault>
    ensures { Gives (λ x. (x.0, x.1)) result (spec.sorting_in (members_view object.now.entries)) }
{
    let order = choice(alloc, object, &SORT_ORDER, SORT_ORDERS)?;
    let target = choice(alloc, object, &SORT_TARGET, SORT_TARGETS)?;
    Ok((order, target))
}

/// What a range shows.
#[derive(Drop)]
struct RangeFlags {
    serializable: bool,
    keys_only: bool,
    count_only: bool,
}

#[tactic(auto, unfolding(json_model::specs::Requests::range_flags_in))]
fn range_flags_in(alloc: Global, object: &Map<String, Value>) -> Result<RangeFlags, FieldFault>
    ensures { Gives (λ x. (x.serializable, x.keys_only, x.count_only)) result (spec.range_flags_in (members_view object.now.entries)) }
{
    let serializable = flag(alloc, object, &SERIALIZABLE)?;
    let keys_only = flag(alloc, object, &KEYS_ONLY)?;
    let count_only = flag(alloc, object, &COUNT_ONLY)?;
    Ok(RangeFlags {
        serializable,
        keys_only,
        count_only,
    })
}

/// The least and the greatest mod revision, and the same of the create revision.
#[derive(Drop)]
struct Bounds {
    min_mod: u64,
    max_mod: u64,
    min_create: u64,
    max_create: u64,
}

#[tactic(auto, unfolding(json_model::specs::Requests::bounds_in))]
fn bounds_in(alloc: Global, object: &Map<String, Value>) -> Result<Bounds, FieldFault>
    ensures { Gives (λ x. (x.min_mod, x.max_mod, x.min_create, x.max_create)) result (spec.bounds_in (members_view object.now.entries)) }
{
    let min_mod = number(alloc, object, &MIN_MOD)?;
    let max_mod = number(alloc, object, &MAX_MOD)?;
    let min_create = number(alloc, object, &MIN_CREATE)?;
    let max_create = number(alloc, object, &MAX_CREATE)?;
    Ok(Bounds {
        min_mod,
        max_mod,
        min_create,
        max_create,
    })
}

#[tactic(auto, unfolding(json_model::specs::Requests::range_in))]
pub fn range_in(alloc: Global, object: &Map<String, Value>) -> Result<RangeAsk, FieldFault>
    ensures { Gives (λ ask. ask) result (spec.range_in (members_view object.now.entries)) }
{
    only_range_fields(alloc, object)?;
    let range = key_range_in(alloc, object)?;
    let (limit, revision) = limits_in(alloc, object)?;
    let (order, target) = sorting_in(alloc, object)?;
    let flags = range_flags_in(alloc, object)?;
    let bounds = bounds_in(alloc, object)?;
    Ok(RangeAsk {
        range,
        revision,
        limit,
        serializable: flags.serializable,
        keys_only: flags.keys_only,
        count_only: flags.count_only,
        sort: Sort {
            order,
            target,
            min_mod: bounds.min_mod,
            max_mod: bounds.max_mod,
            min_create: bounds.min_create,
            max_create: bounds.max_create,
        },
    })
}

/// `ignore_value` and `ignore_lease`.
#[tactic(auto, unfolding(json_model::specs::Requests::ignored_in))]
fn ignored_in(alloc: Global, object: &Map<String, Value>) -> Result<(bool, bool), FieldFault>
    ensures { Gives (λ x. (x.0, x.1)) result (spec.ignored_in (members_view object.now.entries)) }
{
    let ignore_value = flag(alloc, object, &IGNORE_VALUE)?;
    let ignore_lease = flag(alloc, object, &IGNORE_LEASE)?;
    Ok((ignore_value, ignore_lease))
}

/// A put. Its `ignore_value` is only looked at: no request with it is served.
#[tactic(auto, unfolding(json_model::specs::Requests::put_in))]
pub fn put_in(alloc: Global, object: &Map<String, Value>) -> Result<PutAsk, FieldFault>
    ensures { Gives (λ ask. ask) result (spec.put_in (members_view object.now.entries)) }
{
    only_put_fields(alloc, object)?;
    let key = bytes(alloc, object, &KEY)?;
    let value = bytes(alloc, object, &VALUE)?;
    let lease = number(alloc, object, &LEASE)?;
    let prev_kv = flag(alloc, object, &PREV_KV)?;
    let (_, ignore_lease) = ignored_in(alloc, object)?;
    Ok(PutAsk {
        key,
        value,
        lease,
        prev_kv,
        ignore_lease,
    })
}

#[tactic(auto, unfolding(json_model::specs::Requests::delete_in))]
pub fn delete_in(alloc: Global, object: &Map<String, Value>) -> Result<DeleteAsk, FieldFault>
    ensures { Gives (λ ask. ask) result (spec.delete_in (members_view object.now.entries)) }
{
    only_delete_fields(alloc, object)?;
    let range = key_range_in(alloc, object)?;
    let prev_kv = flag(alloc, object, &PREV_KV)?;
    Ok(DeleteAsk { range, prev_kv })
}

#[tactic(auto, unfolding(json_model::specs::Requests::compact_in))]
pub fn compact_in(alloc: Global, object: &Map<String, Value>) -> Result<Request, FieldFault>
    ensures { Gives (λ request. request) result (spec.compact_in (members_view object.now.entries)) }
{
    only_compaction_fields(alloc, object)?;
    let revision = number(alloc, object, &REVISION)?;
    let physical = flag(alloc, object, &PHYSICAL)?;
    Ok(Request::Compact { revision, physical })
}

#[tactic(auto, unfolding(json_model::specs::Requests::grant_in))]
pub fn grant_in(alloc: Global, object: &Map<String, Value>) -> Result<Request, FieldFault>
    ensures { Gives (λ request. request) result (spec.grant_in (members_view object.now.entries)) }
{
    only_grant_fields(alloc, object)?;
    let ttl = number(alloc, object, &TTL)?;
    let lease = number(alloc, object, &ID)?;
    Ok(Request::Grant { ttl, lease })
}

/// The lease of a request that names nothing else.
#[tactic(auto, unfolding(json_model::specs::Requests::lease_in))]
pub fn lease_in(alloc: Global, object: &Map<String, Value>) -> Result<u64, FieldFault>
    ensures { Gives (λ n. n) result (spec.lease_in (members_view object.now.entries)) }
{
    only_lease_fields(alloc, object)?;
    Ok(number(alloc, object, &ID)?)
}

#[tactic(auto, unfolding(json_model::specs::Requests::time_to_live_in))]
pub fn time_to_live_in(alloc: Global, object: &Map<String, Value>) -> Result<Request, FieldFault>
    ensures { Gives (λ request. request) result (spec.time_to_live_in (members_view object.now.entries)) }
{
    only_time_to_live_fields(alloc, object)?;
    let lease = number(alloc, object, &ID)?;
    let keys = flag(alloc, object, &KEYS)?;
    Ok(Request::TimeToLive { lease, keys })
}

/// A request without fields.
#[tactic(auto, unfolding(json_model::specs::Requests::leases_in))]
pub fn leases_in(alloc: Global, object: &Map<String, Value>) -> Result<Request, FieldFault>
    ensures { Gives (λ request. request) result (spec.leases_in (members_view object.now.entries)) }
{
    only_no_fields(alloc, object)?;
    Ok(Request::Leases)
}
