//! Values by their kinds, each under the name that a fault tells.
ghost use Rattle.std.specs.Prelude.{◌≡◌, ◌^◌, option_and_then};
ghost use Rattle.serde_json.specs.Find.{as_u64};
ghost use Rattle.serde_json.specs.View.{view, number_view, items_view, members_view};
ghost use Rattle.json_model.specs.Faults.{Gives};
ghost use Rattle.json_model.specs.Numbers.{below};
ghost use Rattle.json_model.specs.Names.{number_in};
ghost use Rattle.json_model.specs.Fields as spec;

use crate::faults::{bad_base64, bad_enum, bad_number, wrong_kind};
use crate::names::{number_in, number_named};
use crate::numbers::{decimal, in_range, signed_decimal, wide_decimal};
use crate::octets::decoded;
use etcd_types::Bytes;
use json_model::FieldFault;
use serde_json::{Map, Number, Value};
use std::alloc::Global;

fn integer(number: &Number) -> Option<u64>
    ensures { result ≡ option_and_then (below (2 ^ 63)) (as_u64 (number_view number.now)) }
{
    match number.as_u64() {
        Some(n) => in_range(n),
        None => None,
    }
}

fn wide_integer(number: &Number) -> Option<u64>
    ensures { result ≡ option_and_then (below (2 ^ 64)) (as_u64 (number_view number.now)) }
{
    number.as_u64()
}

pub(crate) fn number_of(value: &Value) -> Option<u64>
    ensures { result ≡ spec.number_of (view value.now) }
{
    match value {
        Value::Number(number) => integer(number),
        Value::String(text) => decimal(text.as_str()),
        _ => None,
    }
}

pub(crate) fn number_from(alloc: Global, value: &Value, name: &str) -> Result<u64, FieldFault>
    ensures { Gives (λ n. n) result (spec.number_from (2 ^ 63) name.now (view value.now)) }
{
    let read = match value {
        Value::Number(number) => integer(number),
        Value::String(text) => decimal(text.as_str()),
        _ => return Err(wrong_kind(alloc, name)),
    };
    match read {
        Some(n) => Ok(n),
        None => Err(bad_number(alloc, name)),
    }
}

pub(crate) fn wide_number_from(alloc: Global, value: &Value, name: &str) -> Result<u64, FieldFault>
    ensures { Gives (λ n. n) result (spec.number_from (2 ^ 64) name.now (view value.now)) }
{
    let read = match value {
        Value::Number(number) => wide_integer(number),
        Value::String(text) => wide_decimal(text.as_str()),
        _ => return Err(wrong_kind(alloc, name)),
    };
    match read {
        Some(n) => Ok(n),
        None => Err(bad_number(alloc, name)),
    }
}

pub(crate) fn signed_from(alloc: Global, value: &Value, name: &str) -> Result<i64, FieldFault>
    ensures { Gives (λ n. n) result (spec.signed_from name.now (view value.now)) }
{
    let read = match value {
        Value::Number(number) => number.as_i64(),
        Value::String(text) => signed_decimal(text.as_str()),
        _ => return Err(wrong_kind(alloc, name)),
    };
    match read {
        Some(n) => Ok(n),
        None => Err(bad_number(alloc, name)),
    }
}

/// The bytes of a base64 text under this name: `WrongKind` where it is no text, else `BadBase64` where it is in neither
/// alphabet, is padded wrongly or has nonzero last bits (RFC 4648).
pub fn bytes_from(alloc: Global, value: &Value, name: &str) -> Result<Bytes, FieldFault>
    ensures { Gives (λ b. b) result (spec.bytes_from name.now (view value.now)) }
{
    match value {
        Value::String(text) => match decoded(alloc, text.as_str())? {
            Some(bytes) => Ok(bytes),
            None => Err(bad_base64(alloc, name)),
        },
        _ => Err(wrong_kind(alloc, name)),
    }
}

pub(crate) fn flag_from(alloc: Global, value: &Value, name: &str) -> Result<bool, FieldFault>
    ensures { Gives (λ b. b) result (spec.flag_from name.now (view value.now)) }
{
    match value {
        Value::Bool(flag) => Ok(*flag),
        _ => Err(wrong_kind(alloc, name)),
    }
}

fn number_of_choice(number: &Number, table: &str) -> Option<u8>
    ensures { result ≡ option_and_then (λ m. number_in m table.now) (as_u64 (number_view number.now)) }
{
    match number.as_u64() {
        Some(n) => number_in(n, table),
        None => None,
    }
}

/// The number of an enum's value under this name, which is a name of the table or its number: `WrongKind` where it is
/// neither text nor number, else `BadEnum` where the table has no such one. `table` has the enum's names from number 0,
/// with one space between two of them; a name beyond number 255 is none.
pub fn choice_from(alloc: Global, value: &Value, name: &str, table: &str) -> Result<u8, FieldFault>
    ensures { Gives (λ n. n) result (spec.choice_from table.now name.now (view value.now)) }
{
    let read = match value {
        Value::Number(number) => number_of_choice(number, table),
        Value::String(text) => number_named(text.as_bytes(), table.as_bytes()),
        _ => return Err(wrong_kind(alloc, name)),
    };
    match read {
        Some(n) => Ok(n),
        None => Err(bad_enum(alloc, name)),
    }
}

pub(crate) fn items_from<'a>(
    alloc: Global,
    value: &'a Value,
    name: &str,
) -> Result<&'a [Value], FieldFault>
    ensures { Gives (λ vs. items_view vs.now) result (spec.items_from name.now (view value.now)) }
{
    match value {
        Value::Array(items) => Ok(items.as_slice()),
        _ => Err(wrong_kind(alloc, name)),
    }
}

/// The object under this name, or `WrongKind`.
pub fn members_from<'a>(
    alloc: Global,
    value: &'a Value,
    name: &str,
) -> Result<&'a Map<String, Value>, FieldFault>
    ensures { Gives (λ m. members_view m.now.entries) result (spec.members_from name.now (view value.now)) }
{
    match value {
        Value::Object(members) => Ok(members),
        _ => Err(wrong_kind(alloc, name)),
    }
}
