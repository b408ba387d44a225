//! JSON texts: objects read from bytes and written to bytes.
ghost use Rattle.std.specs.Prelude.{◌≡◌, IfOk, option_map, option_and_then, false};
ghost use Rattle.serde_json.specs.Data.{object};
ghost use Rattle.serde_json.specs.Find.{as_object};
ghost use Rattle.serde_json.specs.View.{view, members_view};
ghost use Rattle.serde_json.specs.Written.{members_have_float, compact_text};
ghost use Rattle.json_model.specs.Texts.{json_of, object_of};

use etcd_types::{Bytes, NoMemory};
use serde_json::{Map, Value};
use std::alloc::Global;

fn value_of(alloc: Global, text: &[u8]) -> Result<Option<Value>, NoMemory>
    ensures { IfOk result (λ v. option_map view v ≡ json_of text.now) }
{
    match Value::from_slice(alloc, text) {
        Ok(value) => Ok(Some(value)),
        Err(e) => if e.is_memory() {
            Err(NoMemory)
        } else {
            Ok(None)
        },
    }
}

fn into_object(value: Value) -> Option<Map<String, Value>>
    ensures { option_map (λ m. members_view m.entries) result ≡ as_object (view value) }
{
    match value {
        Value::Object(members) => Some(members),
        _ => None,
    }
}

/// The members of the object that a text is, none where it is no JSON or no object. Of members of one name the last
/// counts.
#[tactic(auto, unfolding(json_model::specs::Texts::object_of))]
pub fn object_of(alloc: Global, text: &[u8]) -> Result<Option<Map<String, Value>>, NoMemory>
    ensures { IfOk result (λ o. option_map (λ m. members_view m.entries) o ≡ object_of text.now) }
{
    match value_of(alloc, text)? {
        Some(value) => Ok(into_object(value)),
        None => Ok(None),
    }
}

/// The object's text, without spaces and with its names in byte order.
pub fn object_text(alloc: Global, members: Map<String, Value>) -> Result<Bytes, NoMemory>
    ensures { IfOk result (λ b. members_have_float (members_view members.entries) ≡ false → b ≡ compact_text (object (members_view members.entries))) }
{
    let value = Value::Object(members);
    Ok(Bytes::from_vec(value.to_vec(alloc)?))
}
