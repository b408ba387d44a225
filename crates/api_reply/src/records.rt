//! Headers and records as they are written.
ghost use Rattle.std.specs.Prelude.{◌≡◌, IfOk, OnOk, ◌∷◌, []};
ghost use Rattle.serde_json.specs.View.{view, items_view, members_view};
ghost use Rattle.json_model.specs.FieldNames as names;
ghost use Rattle.json_model.specs.Written.{with_field, with_fields, members_of, items_of};
ghost use Rattle.json_model.specs.WrittenReplies as spec;

use etcd_types::{Header, Kv, List, NoMemory};
use json_fields::{put_bytes, put_number, put_object};
use serde_json::{Map, Value};
use std::alloc::Global;

#[tactic(auto, unfolding(json_model::specs::WrittenReplies::header_written))]
fn header_object(alloc: Global, header: &Header) -> Result<Map<String, Value>, NoMemory>
    ensures { IfOk result (λ m. members_view m.entries ≡ members_of (spec.header_written header.now)) }
{
    let mut object = Map::new(alloc);
    put_number(alloc, &mut object, "cluster_id", header.cluster)?;
    put_number(alloc, &mut object, "member_id", header.member)?;
    put_number(alloc, &mut object, "revision", header.revision)?;
    put_number(alloc, &mut object, "raft_term", header.term)?;
    Ok(object)
}

/// Adds the header, also where all its numbers are 0.
pub(crate) fn put_header(
    alloc: Global,
    object: &mut Map<String, Value>,
    header: &Header,
) -> Result<(), NoMemory>
    ensures { OnOk result (members_view object.new.entries ≡ with_fields (members_view object.old.entries) (spec.header_field header.now ∷ [])) }
{
    let fields = header_object(alloc, header)?;
    Ok(put_object(alloc, object, "header", fields)?)
}

#[tactic(auto, unfolding(json_model::specs::WrittenReplies::record_written))]
pub(crate) fn record_object(alloc: Global, kv: &Kv) -> Result<Map<String, Value>, NoMemory>
    ensures { IfOk result (λ m. members_view m.entries ≡ members_of (spec.record_written kv.now)) }
{
    let mut object = Map::new(alloc);
    put_bytes(alloc, &mut object, "key", &kv.key)?;
    put_number(alloc, &mut object, "create_revision", kv.create)?;
    put_number(alloc, &mut object, "mod_revision", kv.modified)?;
    put_number(alloc, &mut object, "version", kv.version)?;
    put_bytes(alloc, &mut object, "value", &kv.value)?;
    put_number(alloc, &mut object, "lease", kv.lease)?;
    Ok(object)
}

fn record_value(alloc: Global, kv: &Kv) -> Result<Value, NoMemory>
    ensures { IfOk result (λ v. view v ≡ spec.record_value kv.now) }
{
    Ok(Value::Object(record_object(alloc, kv)?))
}

pub(crate) fn record_values(alloc: Global, kvs: &List<Kv>) -> Result<Vec<Value>, NoMemory>
    ensures { IfOk result (λ vs. items_view vs.items ≡ items_of spec.record_value kvs.now) }
{
    let mut values = Vec::new(alloc);
    for kv in kvs.as_slice() {
        values.push(record_value(alloc, kv)?)?;
    }
    Ok(values)
}

/// Adds the record before a change, where there is one.
pub(crate) fn put_prev(
    alloc: Global,
    object: &mut Map<String, Value>,
    prev: &Option<Kv>,
) -> Result<(), NoMemory>
    ensures { OnOk result (members_view object.new.entries ≡ with_field names.prev_kv.0 (spec.prev_value prev.now) (members_view object.old.entries)) }
{
    match prev {
        None => Ok(()),
        Some(kv) => {
            let fields = record_object(alloc, kv)?;
            Ok(put_object(alloc, object, "prev_kv", fields)?)
        }
    }
}
