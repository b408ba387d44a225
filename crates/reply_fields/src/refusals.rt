//! What a refusal says.
ghost use Rattle.std.specs.Prelude.{◌≡◌, option_map};
ghost use Rattle.serde_json.specs.View.{view, members_view};
ghost use Rattle.json_model.specs.declared.fault.FieldFault.TheVariants as faults;
ghost use Rattle.json_model.specs.Faults.{Gives, IsFault};
ghost use Rattle.json_model.specs.FieldNames as names;
ghost use Rattle.json_model.specs.Answers as spec;

use etcd_types::{Bytes, Refusal};
use json_fields::{FieldFault, found, number, wrong_kind};
use json_model::names::*;
use json_model::reply_names::*;
use serde_json::{Map, Value};
use std::alloc::Global;

fn bad_code(alloc: Global) -> FieldFault
    ensures { IsFault result (faults.BadNumber names.code.0) }
{
    match Bytes::from_slice(alloc, CODE.plain.as_bytes()) {
        Ok(name) => FieldFault::BadNumber(name),
        Err(e) => FieldFault::from(e),
    }
}

/// A gRPC code has 32 bits, and 0 is no refusal's.
fn code_of(alloc: Global, number: u64) -> Result<u32, FieldFault>
    ensures { Gives (λ code. code) result (spec.code_of number) }
{
    match u32::try_from(number) {
        Ok(code) if code != 0 => Ok(code),
        _ => Err(bad_code(alloc)),
    }
}

fn text_from(alloc: Global, value: Option<&Value>) -> Result<Bytes, FieldFault>
    ensures { Gives (λ text. text) result (spec.text_from (option_map (λ v. view v.now) value.entry)) }
{
    match value {
        None => Ok(Bytes::new(alloc)),
        Some(Value::String(text)) => Ok(Bytes::from_slice(alloc, text.as_bytes())?),
        Some(_) => Err(wrong_kind(alloc, MESSAGE.plain)),
    }
}

#[tactic(auto, unfolding(json_model::specs::Answers::refusal_in))]
pub(crate) fn refusal_in(alloc: Global, object: &Map<String, Value>) -> Result<Refusal, FieldFault>
    ensures { Gives (λ refusal. refusal) result (spec.refusal_in (members_view object.now.entries)) }
{
    let number = number(alloc, object, &CODE)?;
    let code = code_of(alloc, number)?;
    let text = text_from(alloc, found(object, &MESSAGE))?;
    Ok(Refusal { code, text })
}
