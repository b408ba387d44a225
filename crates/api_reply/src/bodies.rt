//! The fields of replies as they are written, but for transactions.
ghost use Rattle.std.specs.Prelude.{◌≡◌, IfOk, OnOk, ◌∷◌, []};
ghost use Rattle.serde_json.specs.View.{view, items_view, members_view};
ghost use Rattle.json_model.specs.Written.{with_fields, items_of, text_of};
ghost use Rattle.json_model.specs.WrittenReplies as spec;

use crate::records::{put_prev, record_values};
use etcd_types::{Bytes, Kv, List, NoMemory};
use json_fields::{bytes_text, put_flag, put_list, put_number, put_signed};
use serde_json::{Map, Value};
use std::alloc::Global;

#[tactic(auto, unfolding(json_model::specs::WrittenReplies::range_fields_of))]
pub(crate) fn put_range_fields(
    alloc: Global,
    object: &mut Map<String, Value>,
    count: u64,
    more: bool,
    kvs: &List<Kv>,
) -> Result<(), NoMemory>
    ensures { OnOk result (members_view object.new.entries ≡ with_fields (members_view object.old.entries) (spec.range_fields_of count more kvs.now)) }
{
    let values = record_values(alloc, kvs)?;
    put_list(alloc, object, "kvs", values)?;
    put_flag(alloc, object, "more", more)?;
    Ok(put_number(alloc, object, "count", count)?)
}

#[tactic(auto, unfolding(json_model::specs::WrittenReplies::put_fields_of))]
pub(crate) fn put_put_fields(
    alloc: Global,
    object: &mut Map<String, Value>,
    prev: &Option<Kv>,
) -> Result<(), NoMemory>
    ensures { OnOk result (members_view object.new.entries ≡ with_fields (members_view object.old.entries) (spec.put_fields_of prev.now)) }
{
    Ok(put_prev(alloc, object, prev)?)
}

#[tactic(auto, unfolding(json_model::specs::WrittenReplies::delete_fields_of))]
pub(crate) fn put_delete_fields(
    alloc: Global,
    object: &mut Map<String, Value>,
    deleted: u64,
    prevs: &List<Kv>,
) -> Result<(), NoMemory>
    ensures { OnOk result (members_view object.new.entries ≡ with_fields (members_view object.old.entries) (spec.delete_fields_of deleted prevs.now)) }
{
    let values = record_values(alloc, prevs)?;
    put_number(alloc, object, "deleted", deleted)?;
    Ok(put_list(alloc, object, "prev_kvs", values)?)
}

#[tactic(auto, unfolding(json_model::specs::WrittenReplies::lease_fields_of))]
pub(crate) fn put_lease_fields(
    alloc: Global,
    object: &mut Map<String, Value>,
    lease: u64,
    ttl: u64,
) -> Result<(), NoMemory>
    ensures { OnOk result (members_view object.new.entries ≡ with_fields (members_view object.old.entries) (spec.lease_fields_of lease ttl)) }
{
    put_number(alloc, object, "ID", lease)?;
    Ok(put_number(alloc, object, "TTL", ttl)?)
}

fn key_values(alloc: Global, keys: &List<Bytes>) -> Result<Vec<Value>, NoMemory>
    ensures { IfOk result (λ vs. items_view vs.items ≡ items_of text_of keys.now) }
{
    let mut values = Vec::new(alloc);
    for key in keys.as_slice() {
        values.push(bytes_text(alloc, key)?)?;
    }
    Ok(values)
}

#[tactic(auto, unfolding(json_model::specs::WrittenReplies::time_to_live_fields_of))]
pub(crate) fn put_time_to_live_fields(
    alloc: Global,
    object: &mut Map<String, Value>,
    lease: u64,
    ttl: i64,
    granted: u64,
    keys: &List<Bytes>,
) -> Result<(), NoMemory>
    ensures { OnOk result (members_view object.new.entries ≡ with_fields (members_view object.old.entries) (spec.time_to_live_fields_of lease ttl granted keys.now)) }
{
    let values = key_values(alloc, keys)?;
    put_number(alloc, object, "ID", lease)?;
    put_signed(alloc, object, "TTL", ttl)?;
    put_number(alloc, object, "grantedTTL", granted)?;
    Ok(put_list(alloc, object, "keys", values)?)
}

fn lease_value(alloc: Global, lease: u64) -> Result<Value, NoMemory>
    ensures { IfOk result (λ v. view v ≡ spec.lease_value lease) }
{
    let mut object = Map::new(alloc);
    put_number(alloc, &mut object, "ID", lease)?;
    Ok(Value::Object(object))
}

fn lease_values(alloc: Global, leases: &List<u64>) -> Result<Vec<Value>, NoMemory>
    ensures { IfOk result (λ vs. items_view vs.items ≡ items_of spec.lease_value leases.now) }
{
    let mut values = Vec::new(alloc);
    for lease in leases.as_slice() {
        values.push(lease_value(alloc, *lease)?)?;
    }
    Ok(values)
}

#[tactic(auto, unfolding(json_model::specs::WrittenReplies::leases_fields_of))]
pub(crate) fn put_leases_fields(
    alloc: Global,
    object: &mut Map<String, Value>,
    leases: &List<u64>,
) -> Result<(), NoMemory>
    ensures { OnOk result (members_view object.new.entries ≡ with_fields (members_view object.old.entries) (spec.leases_fields_of leases.now)) }
{
    let values = lease_values(alloc, leases)?;
    Ok(put_list(alloc, object, "leases", values)?)
}
