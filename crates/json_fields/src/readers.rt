ghost use Rattle.std.specs.Prelude.{◌≡◌, ◌^◌, is_some, option_map, option_and_then};
ghost use Rattle.serde_json.specs.Find.{get_member, as_object, as_array};
ghost use Rattle.serde_json.specs.View.{view, items_view, members_view};
ghost use Rattle.json_model.specs.Faults.{Gives};
ghost use Rattle.json_model.specs.Base64.{or_else};
ghost use Rattle.json_model.specs.Fields as spec;

use crate::values::{
    bytes_from, choice_from, flag_from, items_from, members_from, number_from, number_of,
    signed_from, wide_number_from,
};
use etcd_types::Bytes;
use json_model::{FieldFault, Names};
use serde_json::{Map, Value};
use std::alloc::Global;

fn member<'a>(object: &'a Map<String, Value>, name: &str) -> Option<&'a Value>
    ensures { option_map (λ v. view v.now) result ≡ get_member name.now (members_view object.now.entries) }
{
    object.get(name)
}

fn either<'a>(object: &'a Map<String, Value>, names: &Names) -> Option<&'a Value>
    ensures { option_map (λ v. view v.now) result
        ≡ or_else (get_member names.now.plain.now (members_view object.now.entries))
        (get_member names.now.camel.now (members_view object.now.entries)) }
{
    match member(object, names.plain) {
        Some(value) => Some(value),
        None => member(object, names.camel),
    }
}

/// The field's value, under its plain name or its lowerCamelCase one; none where it is null.
pub fn found<'a>(object: &'a Map<String, Value>, names: &Names) -> Option<&'a Value>
    ensures { option_map (λ v. view v.now) result ≡ spec.found names.now.plain.now names.now.camel.now (members_view object.now.entries) }
{
    match either(object, names) {
        Some(Value::Null) => None,
        value => value,
    }
}

fn above_zero(number: Option<u64>) -> bool
    ensures { result ≡ spec.above_zero number }
{
    match number {
        Some(n) => n != 0,
        None => false,
    }
}

/// Whether the field has a value that isn't null.
pub fn is_there(object: &Map<String, Value>, names: &Names) -> bool
    ensures { result ≡ is_some (spec.found names.now.plain.now names.now.camel.now (members_view object.now.entries)) }
{
    found(object, names).is_some()
}

/// The field's members, where it is an object.
pub fn object_at<'a>(
    object: &'a Map<String, Value>,
    names: &Names,
) -> Option<&'a Map<String, Value>>
    ensures { option_map (λ m. members_view m.now.entries) result
        ≡ option_and_then as_object
        (spec.found names.now.plain.now names.now.camel.now (members_view object.now.entries)) }
{
    match found(object, names) {
        Some(value) => value.as_object(),
        None => None,
    }
}

/// The field's items, where it is an array.
pub fn array_at<'a>(object: &'a Map<String, Value>, names: &Names) -> Option<&'a Vec<Value>>
    ensures { option_map (λ v. items_view v.now.items) result ≡ option_and_then as_array (spec.found names.now.plain.now names.now.camel.now (members_view object.now.entries)) }
{
    match found(object, names) {
        Some(value) => value.as_array(),
        None => None,
    }
}

/// Whether the field is true.
pub fn is_set(object: &Map<String, Value>, names: &Names) -> bool
    ensures { result ≡ spec.is_yes (spec.found names.now.plain.now names.now.camel.now (members_view object.now.entries)) }
{
    match found(object, names) {
        Some(Value::Bool(flag)) => *flag,
        _ => false,
    }
}

/// Whether the field is a number, 1 to 2^63 - 1.
pub fn is_nonzero(object: &Map<String, Value>, names: &Names) -> bool
    ensures { result ≡ spec.is_nonzero (spec.found names.now.plain.now names.now.camel.now (members_view object.now.entries)) }
{
    match found(object, names) {
        Some(value) => above_zero(number_of(value)),
        None => false,
    }
}

/// A number, 0 to 2^63 - 1: `WrongKind` where the value is neither text nor a JSON number, else `BadNumber` where it
/// isn't canonical decimal or out of range.
pub fn number(alloc: Global, object: &Map<String, Value>, names: &Names) -> Result<u64, FieldFault>
    ensures { Gives (λ n. n) result (spec.number_field (2 ^ 63) names.now.plain.now names.now.camel.now (members_view object.now.entries)) }
{
    match found(object, names) {
        None => Ok(0),
        Some(value) => number_from(alloc, value, names.plain),
    }
}

/// A cluster's or a member's number, 0 to 2^64 - 1, else as `number`.
pub fn wide_number(
    alloc: Global,
    object: &Map<String, Value>,
    names: &Names,
) -> Result<u64, FieldFault>
    ensures { Gives (λ n. n) result (spec.number_field (2 ^ 64) names.now.plain.now names.now.camel.now (members_view object.now.entries)) }
{
    match found(object, names) {
        None => Ok(0),
        Some(value) => wide_number_from(alloc, value, names.plain),
    }
}

/// A number of 64 bits with a sign, else as `number`.
pub fn signed(alloc: Global, object: &Map<String, Value>, names: &Names) -> Result<i64, FieldFault>
    ensures { Gives (λ n. n) result (spec.signed_field names.now.plain.now names.now.camel.now (members_view object.now.entries)) }
{
    match found(object, names) {
        None => Ok(0),
        Some(value) => signed_from(alloc, value, names.plain),
    }
}

/// The bytes of a base64 text; faults as of `bytes_from`.
pub fn bytes(alloc: Global, object: &Map<String, Value>, names: &Names) -> Result<Bytes, FieldFault>
    ensures { Gives (λ b. b) result (spec.bytes_field names.now.plain.now names.now.camel.now (members_view object.now.entries)) }
{
    match found(object, names) {
        None => Ok(Bytes::new(alloc)),
        Some(value) => bytes_from(alloc, value, names.plain),
    }
}

/// A JSON boolean, else `WrongKind`.
pub fn flag(alloc: Global, object: &Map<String, Value>, names: &Names) -> Result<bool, FieldFault>
    ensures { Gives (λ b. b) result (spec.flag_field names.now.plain.now names.now.camel.now (members_view object.now.entries)) }
{
    match found(object, names) {
        None => Ok(false),
        Some(value) => flag_from(alloc, value, names.plain),
    }
}

/// The number of an enum's value; the table and faults are those of `choice_from`.
pub fn choice(
    alloc: Global,
    object: &Map<String, Value>,
    names: &Names,
    table: &str,
) -> Result<u8, FieldFault>
    ensures { Gives (λ n. n) result (spec.choice_field table.now names.now.plain.now names.now.camel.now (members_view object.now.entries)) }
{
    match found(object, names) {
        None => Ok(0),
        Some(value) => choice_from(alloc, value, names.plain, table),
    }
}

/// The items of a JSON array, else `WrongKind`.
pub fn list<'a>(
    alloc: Global,
    object: &'a Map<String, Value>,
    names: &Names,
) -> Result<Option<&'a [Value]>, FieldFault>
    ensures { Gives (option_map (λ vs. items_view vs.now)) result (spec.list_field names.now.plain.now names.now.camel.now (members_view object.now.entries)) }
{
    match found(object, names) {
        None => Ok(None),
        Some(value) => Ok(Some(items_from(alloc, value, names.plain)?)),
    }
}

/// A JSON object, else `WrongKind`.
pub fn child<'a>(
    alloc: Global,
    object: &'a Map<String, Value>,
    names: &Names,
) -> Result<Option<&'a Map<String, Value>>, FieldFault>
    ensures { Gives (option_map (λ m. members_view m.now.entries)) result (spec.child_field names.now.plain.now names.now.camel.now (members_view object.now.entries)) }
{
    match found(object, names) {
        None => Ok(None),
        Some(value) => Ok(Some(members_from(alloc, value, names.plain)?)),
    }
}
