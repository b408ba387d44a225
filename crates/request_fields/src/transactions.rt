//! What a transaction says. Its operations may be transactions.
ghost use Rattle.std.specs.Prelude.{◌≡◌, ◌-◌, option_map};
ghost use Rattle.serde_json.specs.View.{view, items_view, members_view};
ghost use Rattle.json_model.specs.Faults.{Gives};
ghost use Rattle.json_model.specs.Fields.{each};
ghost use Rattle.json_model.specs.Transactions as spec;

use crate::compares::compares_in;
use crate::known::{only_operation_fields, only_txn_fields};
use crate::requests::{delete_in, put_in, range_in};
use etcd_types::{List, Op, TxnAsk};
use json_fields::{FieldFault, Names, found, list, members_from, wrong_kind};
use json_model::names::*;
use serde_json::{Map, Value};
use std::alloc::Global;

fn range_operation(alloc: Global, value: &Value) -> Result<Op, FieldFault>
    ensures { Gives (λ operation. operation) result (spec.range_operation (view value.now)) }
{
    let object = members_from(alloc, value, REQUEST_RANGE.plain)?;
    Ok(Op::Range(range_in(alloc, object)?))
}

fn put_operation(alloc: Global, value: &Value) -> Result<Op, FieldFault>
    ensures { Gives (λ operation. operation) result (spec.put_operation (view value.now)) }
{
    let object = members_from(alloc, value, REQUEST_PUT.plain)?;
    Ok(Op::Put(put_in(alloc, object)?))
}

fn delete_operation(alloc: Global, value: &Value) -> Result<Op, FieldFault>
    ensures { Gives (λ operation. operation) result (spec.delete_operation (view value.now)) }
{
    let object = members_from(alloc, value, REQUEST_DELETE_RANGE.plain)?;
    Ok(Op::Delete(delete_in(alloc, object)?))
}

#[cycle(txn)]
fn txn_operation(alloc: Global, value: &Value, depth: u64) -> Result<Op, FieldFault>
    ensures { Gives (λ operation. operation) result (spec.txn_operation (spec.txn_in depth) (view value.now)) }
{
    let object = members_from(alloc, value, REQUEST_TXN.plain)?;
    Ok(Op::Txn(txn_in(alloc, object, depth)?))
}

#[cycle(txn)]
fn the_operation(
    alloc: Global,
    object: &Map<String, Value>,
    name: &str,
    depth: u64,
) -> Result<Op, FieldFault>
    ensures { Gives (λ operation. operation) result (spec.operation_among (spec.txn_in depth) name.now (members_view object.now.entries)) }
{
    let range = found(object, &REQUEST_RANGE);
    let put = found(object, &REQUEST_PUT);
    let delete = found(object, &REQUEST_DELETE_RANGE);
    let txn = found(object, &REQUEST_TXN);
    match (range, put, delete, txn) {
        (Some(value), None, None, None) => range_operation(alloc, value),
        (None, Some(value), None, None) => put_operation(alloc, value),
        (None, None, Some(value), None) => delete_operation(alloc, value),
        (None, None, None, Some(value)) => txn_operation(alloc, value, depth),
        _ => Err(wrong_kind(alloc, name)),
    }
}

#[cycle(txn)]
#[tactic(auto, unfolding(json_model::specs::Transactions::operation_by))]
fn operation_in(alloc: Global, value: &Value, name: &str, depth: u64) -> Result<Op, FieldFault>
    ensures { Gives (λ operation. operation) result (spec.operation_by (spec.txn_in depth) name.now (view value.now)) }
{
    let object = members_from(alloc, value, name)?;
    only_operation_fields(alloc, object)?;
    Ok(the_operation(alloc, object, name, depth)?)
}

#[cycle(txn)]
fn each_operation(
    alloc: Global,
    items: &[Value],
    name: &str,
    depth: u64,
) -> Result<List<Op>, FieldFault>
    ensures { Gives (λ operations. operations) result (each (spec.operation_by (spec.txn_in depth) name.now) (items_view items.now)) }
{
    let mut operations = List::new(alloc);
    for item in items {
        operations.push(operation_in(alloc, item, name, depth)?)?;
    }
    Ok(operations)
}

#[cycle(txn)]
fn operations_in(
    alloc: Global,
    object: &Map<String, Value>,
    names: &Names,
    depth: u64,
) -> Result<List<Op>, FieldFault>
    ensures { Gives (λ operations. operations) result (spec.operations_by (spec.txn_in depth) (names.now.plain.now, names.now.camel.now) (members_view object.now.entries)) }
{
    match list(alloc, object, names)? {
        None => Ok(List::new(alloc)),
        Some(items) => each_operation(alloc, items, names.plain, depth),
    }
}

/// A transaction, in which at most `depth - 1` transactions stand round one another.
#[cycle(txn)]
#[tactic(auto, using(json_model::proofs::TransactionLemmas::txn_in_none, json_model::proofs::TransactionLemmas::txn_in_more))]
pub fn txn_in(alloc: Global, object: &Map<String, Value>, depth: u64) -> Result<TxnAsk, FieldFault>
    ensures { Gives (λ ask. ask) result (spec.txn_in depth (members_view object.now.entries)) }
{
    if depth == 0 {
        return Err(wrong_kind(alloc, REQUEST_TXN.plain));
    }
    Ok(txn_within(alloc, object, depth - 1)?)
}

#[cycle(txn)]
#[tactic(auto, unfolding(json_model::specs::Transactions::txn_by))]
fn txn_within(alloc: Global, object: &Map<String, Value>, depth: u64) -> Result<TxnAsk, FieldFault>
    ensures { Gives (λ ask. ask) result (spec.txn_by (spec.txn_in depth) (members_view object.now.entries)) }
{
    only_txn_fields(alloc, object)?;
    let compare = compares_in(alloc, object)?;
    let success = operations_in(alloc, object, &SUCCESS, depth)?;
    let failure = operations_in(alloc, object, &FAILURE, depth)?;
    Ok(TxnAsk {
        compare,
        success,
        failure,
    })
}
