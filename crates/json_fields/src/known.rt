ghost use Rattle.std.specs.Prelude.{◌≡◌, option_map};
ghost use Rattle.serde_json.specs.View.{members_view};
ghost use Rattle.json_model.specs.Faults.{Gives};
ghost use Rattle.json_model.specs.Names.{camel, words, field_of};
ghost use Rattle.json_model.specs.Known as spec;

use crate::faults::{twice_named, unknown_field};
use crate::names::{field_of, is_camel};
use json_model::FieldFault;
use serde_json::{Map, Value};
use std::alloc::Global;

fn has_key(object: &Map<String, Value>, name: &[u8]) -> bool
    ensures { result ≡ spec.has_key name.now (members_view object.now.entries) }
{
    for (key, _) in object.iter() {
        if key.as_bytes() == name {
            return true;
        }
    }
    false
}

fn has_camel(object: &Map<String, Value>, name: &[u8]) -> bool
    ensures { result ≡ spec.has_key (camel name.now) (members_view object.now.entries) }
{
    for (key, _) in object.iter() {
        if is_camel(key.as_bytes(), name) {
            return true;
        }
    }
    false
}

fn is_twice(object: &Map<String, Value>, name: &[u8]) -> bool
    ensures { result ≡ spec.is_twice name.now (members_view object.now.entries) }
{
    !is_camel(name, name) && has_key(object, name) && has_camel(object, name)
}

fn first_twice<'a>(object: &Map<String, Value>, names: &'a [u8]) -> Option<&'a [u8]>
    ensures { option_map (λ name. name.now) result ≡ spec.first_twice (words names.now) (members_view object.now.entries) }
{
    if names.is_empty() {
        return None;
    }
    names
        .split(|b| *b == b' ')
        .find(|name| is_twice(object, *name))
}

fn known(
    alloc: Global,
    key: &str,
    names: &[u8],
    object: &Map<String, Value>,
) -> Result<(), FieldFault>
    ensures { Gives (λ n. n) result (spec.known key.now (field_of key.now (words names.now)) (members_view object.now.entries)) }
{
    match field_of(key.as_bytes(), names) {
        None => Err(unknown_field(alloc, key)),
        Some(name) if is_twice(object, name) => Err(twice_named(alloc, name)),
        Some(_) => Ok(()),
    }
}

/// Each key is a field's plain or lowerCamelCase name, and no field has both. `allowed` has the plain names, with one
/// space between two of them.
///
/// The fault is that of the first offending key in byte order: `UnknownField` with the key, or `TwiceNamed` with the
/// field's plain name.
#[tactic(auto, unfolding(json_model::specs::Known::only))]
pub fn only(alloc: Global, object: &Map<String, Value>, allowed: &str) -> Result<(), FieldFault>
    ensures { Gives (λ n. n) result (spec.only (members_view object.now.entries) allowed.now) }
{
    let names = allowed.as_bytes();
    for (key, _) in object.iter() {
        known(alloc, key.as_str(), names, object)?;
    }
    Ok(())
}

/// None of these fields has both its names; other keys don't matter. The fault is `TwiceNamed` with the first such
/// field's plain name.
#[tactic(auto, unfolding(json_model::specs::Known::once))]
pub fn once(alloc: Global, object: &Map<String, Value>, names: &str) -> Result<(), FieldFault>
    ensures { Gives (λ n. n) result (spec.once (members_view object.now.entries) names.now) }
{
    match first_twice(object, names.as_bytes()) {
        None => Ok(()),
        Some(name) => Err(twice_named(alloc, name)),
    }
}
