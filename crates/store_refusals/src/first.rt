ghost use Rattle.std.specs.Prelude.{◌≡◌, IfOk};
ghost use Rattle.std.specs.List.{list_any};
ghost use Rattle.etcd_types.specs.Keys.{same};
ghost use Rattle.etcd_types.specs.Ranges.{contains};
ghost use Rattle.etcd_types.specs.declared.operation.Op.TheVariants as op;
ghost use Rattle.store_model.specs.FirstRefusals.{longest, exceeds, exceeds_all, exceeds_txn, operations_limit, first_refusal};
ghost use Rattle.store_model.specs.FirstRefusals.{compare_lacks_key, lacks_key, txn_lacks_key};
ghost use Rattle.store_model.specs.FirstRefusals.{put_keys, has_twins, deletes_one_of, list_repeats_key, repeats_key, txn_repeats_key};

use crate::texts;
use etcd_types::{Bytes, Compare, KeyRange, List, NoMemory, Op, Refusal, TxnAsk};
use std::alloc::Global;

/// The most compares or operations of one list, and the most ranges that one transaction can compare.
pub const OPERATIONS_LIMIT: u64 = 128;

/// The refusal of a transaction before it runs: too many operations, an empty key, a key named twice, in this order.
#[tactic(auto, using(crate::proofs::OfTransactions::of_transactions))]
pub fn first_refusal_of_txn(alloc: Global, txn: &TxnAsk) -> Result<Option<Refusal>, NoMemory>
    ensures { IfOk result (λ found. found ≡ first_refusal (op.Txn txn.now)) }
{
    if exceeds_txn(txn, OPERATIONS_LIMIT) {
        return Ok(Some(texts::too_many_operations(alloc)?));
    }
    if txn_lacks_key(txn) {
        return Ok(Some(texts::key_not_provided(alloc)?));
    }
    if txn_repeats_key(txn) {
        return Ok(Some(texts::duplicate_key(alloc)?));
    }
    Ok(None)
}

/// Whether some list is longer than the limit, where a transaction within has what the longest list here leaves of it.
#[cycle(exceeds)]
fn exceeds_txn(txn: &TxnAsk, limit: u64) -> bool
    ensures { result ≡ exceeds_txn limit txn.now }
{
    let most = longest(txn);
    if limit < most {
        return true;
    }
    let left = limit - most;
    exceeds_all(&txn.success, left) || exceeds_all(&txn.failure, left)
}

#[cycle(exceeds)]
fn exceeds_all(operations: &List<Op>, limit: u64) -> bool
    ensures { result ≡ exceeds_all limit operations.now }
{
    for operation in operations.as_slice() {
        if exceeds(operation, limit) {
            return true;
        }
    }
    false
}

#[cycle(exceeds)]
#[tactic(auto, using(crate::proofs::OfTransactions::of_transactions))]
fn exceeds(operation: &Op, limit: u64) -> bool
    ensures { result ≡ exceeds limit operation.now }
{
    match operation {
        Op::Range(_) | Op::Put(_) | Op::Delete(_) => false,
        Op::Txn(txn) => exceeds_txn(txn, limit),
    }
}

fn longest(txn: &TxnAsk) -> u64
    ensures { result ≡ longest txn.now.compare txn.now.success txn.now.failure }
{
    let branches = txn.success.len().max(txn.failure.len());
    txn.compare.len().max(branches) as u64
}

#[cycle(lacks_key)]
fn txn_lacks_key(txn: &TxnAsk) -> bool
    ensures { result ≡ txn_lacks_key txn.now }
{
    some_compare_lacks_key(txn.compare.as_slice())
        || some_lacks_key(&txn.success)
        || some_lacks_key(&txn.failure)
}

fn some_compare_lacks_key(compares: &[Compare]) -> bool
    ensures { result ≡ list_any compare_lacks_key compares.now }
{
    compares.iter().any(|compare| compare.range.key.is_empty())
}

#[cycle(lacks_key)]
fn some_lacks_key(operations: &List<Op>) -> bool
    ensures { result ≡ list_any lacks_key operations.now }
{
    for operation in operations.as_slice() {
        if lacks_key(operation) {
            return true;
        }
    }
    false
}

#[cycle(lacks_key)]
#[tactic(auto, using(crate::proofs::OfTransactions::of_transactions))]
fn lacks_key(operation: &Op) -> bool
    ensures { result ≡ lacks_key operation.now }
{
    match operation {
        Op::Range(ask) => ask.range.key.is_empty(),
        Op::Put(ask) => ask.key.is_empty(),
        Op::Delete(ask) => ask.range.key.is_empty(),
        Op::Txn(txn) => txn_lacks_key(txn),
    }
}

#[cycle(repeats_key)]
fn txn_repeats_key(txn: &TxnAsk) -> bool
    ensures { result ≡ txn_repeats_key txn.now }
{
    list_repeats_key(txn.success.as_slice())
        || list_repeats_key(txn.failure.as_slice())
        || some_repeats_key(&txn.success)
        || some_repeats_key(&txn.failure)
}

#[cycle(repeats_key)]
fn some_repeats_key(operations: &List<Op>) -> bool
    ensures { result ≡ list_any repeats_key operations.now }
{
    for operation in operations.as_slice() {
        if repeats_key(operation) {
            return true;
        }
    }
    false
}

#[cycle(repeats_key)]
#[tactic(auto, using(crate::proofs::OfTransactions::of_transactions))]
fn repeats_key(operation: &Op) -> bool
    ensures { result ≡ repeats_key operation.now }
{
    match operation {
        Op::Range(_) | Op::Put(_) | Op::Delete(_) => false,
        Op::Txn(txn) => txn_repeats_key(txn),
    }
}

/// Whether the list by itself puts a key twice, or deletes a key that it puts.
fn list_repeats_key(operations: &[Op]) -> bool
    ensures { result ≡ list_repeats_key operations.now }
{
    puts_twice(operations) || deletes_what_it_puts(operations)
}

fn puts_twice(operations: &[Op]) -> bool
    ensures { result ≡ has_twins (put_keys operations.now) }
{
    for (index, operation) in operations.iter().enumerate() {
        if let Op::Put(ask) = operation {
            if puts(&operations[index + 1..], &ask.key) {
                return true;
            }
        }
    }
    false
}

fn puts(operations: &[Op], key: &Bytes) -> bool
    ensures { result ≡ list_any (same key.now) (put_keys operations.now) }
{
    for operation in operations {
        if let Op::Put(ask) = operation {
            if key.cmp(&ask.key).is_eq() {
                return true;
            }
        }
    }
    false
}

fn deletes_what_it_puts(operations: &[Op]) -> bool
    ensures { result ≡ list_any (deletes_one_of (put_keys operations.now)) operations.now }
{
    for operation in operations {
        if let Op::Delete(ask) = operation {
            if puts_within(operations, &ask.range) {
                return true;
            }
        }
    }
    false
}

fn puts_within(operations: &[Op], range: &KeyRange) -> bool
    ensures { result ≡ list_any (contains range.now) (put_keys operations.now) }
{
    for operation in operations {
        if let Op::Put(ask) = operation {
            if range.contains(&ask.key) {
                return true;
            }
        }
    }
    false
}
