//! What a compare of a transaction says.
ghost use Rattle.std.specs.Prelude.{◌≡◌};
ghost use Rattle.serde_json.specs.View.{view, items_view, members_view};
ghost use Rattle.json_model.specs.Faults.{Gives};
ghost use Rattle.json_model.specs.FieldNames as names;
ghost use Rattle.json_model.specs.Fields.{each};
ghost use Rattle.json_model.specs.Compares as spec;

use crate::known::only_compare_fields;
use etcd_types::{Bytes, Compare, KeyRange, List, Relation, Target};
use json_fields::{
    FieldFault, Names, bytes, choice, is_there, list, members_from, number, wrong_kind,
};
use json_model::names::*;
use serde_json::{Map, Value};
use std::alloc::Global;

fn relation_of(number: u8) -> Relation
    ensures { result ≡ spec.relation_of number }
{
    match number {
        0 => Relation::Equal,
        1 => Relation::Greater,
        2 => Relation::Less,
        _ => Relation::NotEqual,
    }
}

fn target_of(number: u8) -> Target
    ensures { result ≡ spec.target_of number }
{
    match number {
        0 => Target::Version,
        1 => Target::Create,
        2 => Target::Modified,
        3 => Target::Value,
        _ => Target::Lease,
    }
}

#[tactic(auto, unfolding(json_model::specs::Compares::comparison_in))]
fn comparison_in(
    alloc: Global,
    object: &Map<String, Value>,
) -> Result<(Relation, Target), FieldFault>
    ensures { Gives (λ x. (x.0, x.1)) result (spec.comparison_in (members_view object.now.entries)) }
{
    let relation = choice(alloc, object, &RESULT, RELATIONS)?;
    let target = choice(alloc, object, &TARGET, TARGETS)?;
    Ok((relation_of(relation), target_of(target)))
}

/// An operand that is a number, or 0: where it isn't wanted, it may not be there.
fn number_operand(
    alloc: Global,
    object: &Map<String, Value>,
    wanted: bool,
    names: &Names,
) -> Result<u64, FieldFault>
    ensures { Gives (λ n. n) result (spec.number_operand wanted (names.now.plain.now, names.now.camel.now) (members_view object.now.entries)) }
{
    if wanted {
        number(alloc, object, names)
    } else if is_there(object, names) {
        Err(wrong_kind(alloc, names.plain))
    } else {
        Ok(0)
    }
}

/// The operand that is a value, or none: where it isn't wanted, it may not be there.
fn value_operand(
    alloc: Global,
    object: &Map<String, Value>,
    wanted: bool,
    names: &Names,
) -> Result<Bytes, FieldFault>
    ensures { Gives (λ b. b) result (spec.value_operand wanted (names.now.plain.now, names.now.camel.now) (members_view object.now.entries)) }
{
    if wanted {
        bytes(alloc, object, names)
    } else if is_there(object, names) {
        Err(wrong_kind(alloc, names.plain))
    } else {
        Ok(Bytes::new(alloc))
    }
}

#[tactic(auto, unfolding(json_model::specs::Compares::version_in))]
fn version_in(alloc: Global, object: &Map<String, Value>, target: Target) -> Result<u64, FieldFault>
    ensures { Gives (λ x. x) result (spec.version_in target (members_view object.now.entries)) }
{
    let wanted = matches!(target, Target::Version);
    Ok(number_operand(alloc, object, wanted, &VERSION)?)
}

#[tactic(auto, unfolding(json_model::specs::Compares::create_in))]
fn create_in(alloc: Global, object: &Map<String, Value>, target: Target) -> Result<u64, FieldFault>
    ensures { Gives (λ x. x) result (spec.create_in target (members_view object.now.entries)) }
{
    let wanted = matches!(target, Target::Create);
    Ok(number_operand(alloc, object, wanted, &CREATE_REVISION)?)
}

#[tactic(auto, unfolding(json_model::specs::Compares::modified_in))]
fn modified_in(
    alloc: Global,
    object: &Map<String, Value>,
    target: Target,
) -> Result<u64, FieldFault>
    ensures { Gives (λ x. x) result (spec.modified_in target (members_view object.now.entries)) }
{
    let wanted = matches!(target, Target::Modified);
    Ok(number_operand(alloc, object, wanted, &MOD_REVISION)?)
}

#[tactic(auto, unfolding(json_model::specs::Compares::value_in))]
fn value_in(alloc: Global, object: &Map<String, Value>, target: Target) -> Result<Bytes, FieldFault>
    ensures { Gives (λ x. x) result (spec.value_in target (members_view object.now.entries)) }
{
    let wanted = matches!(target, Target::Value);
    Ok(value_operand(alloc, object, wanted, &VALUE)?)
}

#[tactic(auto, unfolding(json_model::specs::Compares::lease_in))]
fn lease_in(alloc: Global, object: &Map<String, Value>, target: Target) -> Result<u64, FieldFault>
    ensures { Gives (λ x. x) result (spec.lease_in target (members_view object.now.entries)) }
{
    let wanted = matches!(target, Target::Lease);
    Ok(number_operand(alloc, object, wanted, &LEASE)?)
}

/// The number of the target's field.
fn chosen_number(target: Target, version: u64, create: u64, modified: u64, lease: u64) -> u64
    ensures { result ≡ spec.chosen_number target version create modified lease }
{
    match target {
        Target::Version => version,
        Target::Create => create,
        Target::Modified => modified,
        Target::Value => 0,
        Target::Lease => lease,
    }
}

/// The number and the value that the target's field gives.
#[tactic(auto, unfolding(json_model::specs::Compares::operand_in))]
fn operand_in(
    alloc: Global,
    object: &Map<String, Value>,
    target: Target,
) -> Result<(u64, Bytes), FieldFault>
    ensures { Gives (λ x. (x.0, x.1)) result (spec.operand_in target (members_view object.now.entries)) }
{
    let version = version_in(alloc, object, target)?;
    let create = create_in(alloc, object, target)?;
    let modified = modified_in(alloc, object, target)?;
    let value = value_in(alloc, object, target)?;
    let lease = lease_in(alloc, object, target)?;
    Ok((
        chosen_number(target, version, create, modified, lease),
        value,
    ))
}

#[tactic(auto, unfolding(json_model::specs::Compares::compare_in))]
fn compare_in(alloc: Global, value: &Value) -> Result<Compare, FieldFault>
    ensures { Gives (λ compare. compare) result (spec.compare_in (view value.now)) }
{
    let object = members_from(alloc, value, COMPARE.plain)?;
    only_compare_fields(alloc, object)?;
    let (relation, target) = comparison_in(alloc, object)?;
    let key = bytes(alloc, object, &KEY)?;
    let (number, value) = operand_in(alloc, object, target)?;
    let end = bytes(alloc, object, &RANGE_END)?;
    Ok(Compare {
        range: KeyRange { key, end },
        target,
        relation,
        number,
        value,
    })
}

fn each_compare(alloc: Global, items: &[Value]) -> Result<List<Compare>, FieldFault>
    ensures { Gives (λ compares. compares) result (each spec.compare_in (items_view items.now)) }
{
    let mut compares = List::new(alloc);
    for item in items {
        compares.push(compare_in(alloc, item)?)?;
    }
    Ok(compares)
}

pub(crate) fn compares_in(
    alloc: Global,
    object: &Map<String, Value>,
) -> Result<List<Compare>, FieldFault>
    ensures { Gives (λ compares. compares) result (spec.compares_in (members_view object.now.entries)) }
{
    match list(alloc, object, &COMPARE)? {
        None => Ok(List::new(alloc)),
        Some(items) => each_compare(alloc, items),
    }
}
