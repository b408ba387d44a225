ghost use Rattle.std.specs.Prelude.{◌≡◌, Some, OnOk, OnErr, IfOk, option_map};
ghost use Rattle.serde_json.specs.Data.{object as object_data, no_members, put};
ghost use Rattle.serde_json.specs.View.{view, items_view, members_view};
ghost use Rattle.json_model.specs.Names.{name_at};
ghost use Rattle.json_model.specs.Written as spec;

use crate::names::name_at;
use crate::octets::encoded;
use etcd_types::{Bytes, NoMemory};
use serde_json::{Map, Value};
use std::alloc::Global;

/// Adds a field with this value, also a default one. Where the field was there, its value is replaced.
pub fn put_value(
    alloc: Global,
    object: &mut Map<String, Value>,
    name: &'static str,
    value: Value,
) -> Result<(), NoMemory>
    ensures ok { OnOk result (members_view object.new.entries ≡ put name.now (view value) (members_view object.old.entries)) }
    ensures err { OnErr result (members_view object.new.entries ≡ members_view object.old.entries) }
{
    serde_json::put(object, alloc, name, value)?;
    Ok(())
}

/// Adds a field with this object, also an empty one.
pub fn put_object(
    alloc: Global,
    object: &mut Map<String, Value>,
    name: &'static str,
    fields: Map<String, Value>,
) -> Result<(), NoMemory>
    ensures ok { OnOk result (members_view object.new.entries ≡ spec.with_field name.now (Some (object_data (members_view fields.entries))) (members_view object.old.entries)) }
    ensures err { OnErr result (members_view object.new.entries ≡ members_view object.old.entries) }
{
    Ok(put_value(alloc, object, name, Value::Object(fields))?)
}

/// An object of one field, which has this object, also an empty one.
pub fn object_within(
    alloc: Global,
    name: &'static str,
    fields: Map<String, Value>,
) -> Result<Value, NoMemory>
    ensures { IfOk result (λ v. view v ≡ object_data (spec.with_field name.now (Some (object_data (members_view fields.entries))) no_members)) }
{
    let mut object = Map::new(alloc);
    put_object(alloc, &mut object, name, fields)?;
    Ok(Value::Object(object))
}

/// The bytes as a base64 text in the standard alphabet, with padding.
pub fn bytes_text(alloc: Global, bytes: &Bytes) -> Result<Value, NoMemory>
    ensures { IfOk result (λ v. view v ≡ spec.text_of bytes.now) }
{
    Ok(Value::String(encoded(alloc, bytes.as_slice())?))
}

/// Adds a number as text.
pub fn put_number(
    alloc: Global,
    object: &mut Map<String, Value>,
    name: &'static str,
    value: u64,
) -> Result<(), NoMemory>
    ensures ok { OnOk result (members_view object.new.entries ≡ spec.with_field name.now (spec.number_value value) (members_view object.old.entries)) }
    ensures err { OnErr result (members_view object.new.entries ≡ members_view object.old.entries) }
{
    if value == 0 {
        return Ok(());
    }
    let digits = value.to_string(alloc)?;
    Ok(put_value(alloc, object, name, Value::String(digits))?)
}

/// Adds a number with a sign as text.
pub fn put_signed(
    alloc: Global,
    object: &mut Map<String, Value>,
    name: &'static str,
    value: i64,
) -> Result<(), NoMemory>
    ensures ok { OnOk result (members_view object.new.entries ≡ spec.with_field name.now (spec.signed_value value) (members_view object.old.entries)) }
    ensures err { OnErr result (members_view object.new.entries ≡ members_view object.old.entries) }
{
    if value == 0 {
        return Ok(());
    }
    let text = value.to_string(alloc)?;
    Ok(put_value(alloc, object, name, Value::String(text))?)
}

/// Adds bytes as base64 text in the standard alphabet, with padding.
pub fn put_bytes(
    alloc: Global,
    object: &mut Map<String, Value>,
    name: &'static str,
    value: &Bytes,
) -> Result<(), NoMemory>
    ensures ok { OnOk result (members_view object.new.entries ≡ spec.with_field name.now (spec.bytes_value value.now) (members_view object.old.entries)) }
    ensures err { OnErr result (members_view object.new.entries ≡ members_view object.old.entries) }
{
    if value.is_empty() {
        return Ok(());
    }
    let text = bytes_text(alloc, value)?;
    Ok(put_value(alloc, object, name, text)?)
}

/// Adds a JSON boolean.
pub fn put_flag(
    alloc: Global,
    object: &mut Map<String, Value>,
    name: &'static str,
    value: bool,
) -> Result<(), NoMemory>
    ensures ok { OnOk result (members_view object.new.entries ≡ spec.with_field name.now (spec.flag_value value) (members_view object.old.entries)) }
    ensures err { OnErr result (members_view object.new.entries ≡ members_view object.old.entries) }
{
    if !value {
        return Ok(());
    }
    Ok(put_value(alloc, object, name, Value::Bool(true))?)
}

fn choice_value(alloc: Global, table: &str, value: u8) -> Result<Value, NoMemory>
    ensures { IfOk result (λ v. view v ≡ spec.named_or_number value (name_at value table.now)) }
{
    match name_at(value, table) {
        Some(name) => Ok(Value::try_from_str(alloc, name)?),
        None => Ok(Value::from(value)),
    }
}

/// Adds an enum's value: the table's name of that number, or the number as a JSON number where the table has none.
pub fn put_choice(
    alloc: Global,
    object: &mut Map<String, Value>,
    name: &'static str,
    table: &str,
    value: u8,
) -> Result<(), NoMemory>
    ensures ok { OnOk result (members_view object.new.entries ≡ spec.with_field name.now (spec.choice_value table.now value) (members_view object.old.entries)) }
    ensures err { OnErr result (members_view object.new.entries ≡ members_view object.old.entries) }
{
    if value == 0 {
        return Ok(());
    }
    let value = choice_value(alloc, table, value)?;
    Ok(put_value(alloc, object, name, value)?)
}

/// Adds a JSON array of these items.
pub fn put_list(
    alloc: Global,
    object: &mut Map<String, Value>,
    name: &'static str,
    items: Vec<Value>,
) -> Result<(), NoMemory>
    ensures ok { OnOk result (members_view object.new.entries ≡ spec.with_field name.now (spec.list_value (items_view items.items)) (members_view object.old.entries)) }
    ensures err { OnErr result (members_view object.new.entries ≡ members_view object.old.entries) }
{
    if items.as_slice().is_empty() {
        return Ok(());
    }
    Ok(put_value(alloc, object, name, Value::Array(items))?)
}
