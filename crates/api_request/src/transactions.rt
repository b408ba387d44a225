//! Transactions as they are written. An operation may be a transaction.
ghost use Rattle.std.specs.Prelude.{◌≡◌, IfOk, OnOk};
ghost use Rattle.serde_json.specs.View.{view, items_view, members_view};
ghost use Rattle.json_model.specs.Written.{with_field, members_of, items_of};
ghost use Rattle.json_model.specs.WrittenRequests as spec;

use crate::fields::{delete_fields, put_fields, range_fields};
use etcd_types::{Bytes, Compare, List, NoMemory, Op, Relation, Target, TxnAsk};
use json_fields::{object_within, put_bytes, put_choice, put_list, put_number};
use json_model::names::{RELATIONS, TARGETS};
use serde_json::{Map, Value};
use std::alloc::Global;

fn relation_number(relation: Relation) -> u8
    ensures { result ≡ spec.relation_number relation }
{
    match relation {
        Relation::Equal => 0,
        Relation::Greater => 1,
        Relation::Less => 2,
        Relation::NotEqual => 3,
    }
}

fn target_number(target: Target) -> u8
    ensures { result ≡ spec.target_number target }
{
    match target {
        Target::Version => 0,
        Target::Create => 1,
        Target::Modified => 2,
        Target::Value => 3,
        Target::Lease => 4,
    }
}

/// Adds the target's own operand.
fn put_operand(
    alloc: Global,
    fields: &mut Map<String, Value>,
    target: Target,
    number: u64,
    value: &Bytes,
) -> Result<(), NoMemory>
    ensures { OnOk result (members_view fields.new.entries
        ≡ with_field (spec.operand_written target number value.now).0
        (spec.operand_written target number value.now).1 (members_view fields.old.entries)) }
{
    match target {
        Target::Version => Ok(put_number(alloc, fields, "version", number)?),
        Target::Create => Ok(put_number(alloc, fields, "create_revision", number)?),
        Target::Modified => Ok(put_number(alloc, fields, "mod_revision", number)?),
        Target::Value => Ok(put_bytes(alloc, fields, "value", value)?),
        Target::Lease => Ok(put_number(alloc, fields, "lease", number)?),
    }
}

#[tactic(auto, unfolding(json_model::specs::WrittenRequests::compare_written))]
fn compare_value(alloc: Global, compare: &Compare) -> Result<Value, NoMemory>
    ensures { IfOk result (λ v. view v ≡ spec.compare_value compare.now) }
{
    let relation = relation_number(compare.relation);
    let target = target_number(compare.target);
    let mut fields = Map::new(alloc);
    put_choice(alloc, &mut fields, "result", RELATIONS, relation)?;
    put_choice(alloc, &mut fields, "target", TARGETS, target)?;
    put_bytes(alloc, &mut fields, "key", &compare.range.key)?;
    put_operand(
        alloc,
        &mut fields,
        compare.target,
        compare.number,
        &compare.value,
    )?;
    put_bytes(alloc, &mut fields, "range_end", &compare.range.end)?;
    Ok(Value::Object(fields))
}

fn compare_values(alloc: Global, compares: &List<Compare>) -> Result<Vec<Value>, NoMemory>
    ensures { IfOk result (λ vs. items_view vs.items ≡ items_of spec.compare_value compares.now) }
{
    let mut values = Vec::new(alloc);
    for compare in compares.as_slice() {
        values.push(compare_value(alloc, compare)?)?;
    }
    Ok(values)
}

/// An operation is an object of its one field.
#[cycle(operation)]
#[tactic(auto, unfolding(json_model::specs::WrittenRequests::operation_written), using(crate::proofs::Operations::txn_value))]
fn operation_value(alloc: Global, operation: &Op) -> Result<Value, NoMemory>
    ensures { IfOk result (λ v. view v ≡ spec.operation_value operation.now) }
{
    match operation {
        Op::Range(ask) => Ok(object_within(alloc, "request_range", range_fields(alloc, ask)?)?),
        Op::Put(ask) => Ok(object_within(alloc, "request_put", put_fields(alloc, ask)?)?),
        Op::Delete(ask) => {
            Ok(object_within(alloc, "request_delete_range", delete_fields(alloc, ask)?)?)
        }
        Op::Txn(ask) => Ok(object_within(alloc, "request_txn", txn_fields(alloc, ask)?)?),
    }
}

#[cycle(operation)]
fn operation_values(alloc: Global, operations: &List<Op>) -> Result<Vec<Value>, NoMemory>
    ensures { IfOk result (λ vs. items_view vs.items ≡ items_of spec.operation_value operations.now) }
{
    let mut values = Vec::new(alloc);
    for operation in operations.as_slice() {
        values.push(operation_value(alloc, operation)?)?;
    }
    Ok(values)
}

#[cycle(operation)]
#[tactic(auto, unfolding(json_model::specs::WrittenRequests::lists_written))]
pub(crate) fn txn_fields(alloc: Global, ask: &TxnAsk) -> Result<Map<String, Value>, NoMemory>
    ensures { IfOk result (λ m. members_view m.entries ≡ members_of (spec.txn_written ask.now)) }
{
    let compares = compare_values(alloc, &ask.compare)?;
    let success = operation_values(alloc, &ask.success)?;
    let failure = operation_values(alloc, &ask.failure)?;
    let mut fields = Map::new(alloc);
    put_list(alloc, &mut fields, "compare", compares)?;
    put_list(alloc, &mut fields, "success", success)?;
    put_list(alloc, &mut fields, "failure", failure)?;
    Ok(fields)
}
