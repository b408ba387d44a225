//! Transactions without writes, answered from records that are held: what the store would answer if these were its own,
//! by the rules of etcd's `Txn` and `Compare`.
#![tactic(auto)]

ghost use Rattle.std.specs.Prelude.{◌≡◌, map, IfOk, is_some};
ghost use Rattle.std.specs.List.{list_all};
ghost use Rattle.std.specs.Option.{option_copied, option_to_list};
ghost use Rattle.std.specs.Option.{option_map};
ghost use Rattle.proxy_model.specs.Snapshot.{Held, snapshot, all_held};
ghost use Rattle.proxy_model.specs.Snapshot.{record_held, is_compare_held, is_read_held, snapshot_holds, snapshot_body, plain_body};

mod compares;
mod form;

use compares::holds;
use etcd_types::{Body, Bytes, Compare, Kv, List, NoMemory, Op, TxnAsk};
pub use form::is_plain;
use form::{is_snapshot, names_nothing};
use std::alloc::Global;

/// The records that a proxy holds.
pub trait Records {
    ghost records: { Self → Held };

    /// Nothing where the key isn't held, and a held nothing where it is held as absent.
    fn held(&self, key: &Bytes) -> Option<Option<&Kv>>
        ensures { option_map option_copied result ≡ records self.now key.now };
}

/// The answer to a transaction without writes by the records that are held: what the store would answer if these were its
/// records. Nothing where the transaction isn't one of plain reads and compares of single keys, names no key, has a list
/// of more than 128, or where a key that it names isn't held.
pub fn read_only<R: Records>(
    alloc: Global,
    txn: &TxnAsk,
    records: &R,
) -> Result<Option<Body>, NoMemory>
    ensures { IfOk result (λ body. body ≡ snapshot (R.records records.now) txn.now) }
{
    if !is_snapshot(txn) || names_nothing(txn) || !all_held(txn, records) {
        return Ok(None);
    }
    let succeeded = all_hold(&txn.compare, records);
    let reads = if succeeded {
        &txn.success
    } else {
        &txn.failure
    };
    let bodies = read_all(alloc, reads, records)?;
    Ok(Some(Body::Txn { succeeded, bodies }))
}

fn all_held<R: Records>(txn: &TxnAsk, records: &R) -> bool
    ensures { result ≡ all_held (R.records records.now) txn.now }
{
    compares_held(&txn.compare, records)
        && reads_held(&txn.success, records)
        && reads_held(&txn.failure, records)
}

fn compares_held<R: Records>(compares: &List<Compare>, records: &R) -> bool
    ensures { result ≡ list_all (is_compare_held (R.records records.now)) compares.now }
{
    for compare in compares.as_slice() {
        if !is_held(&compare.range.key, records) {
            return false;
        }
    }
    true
}

fn reads_held<R: Records>(ops: &List<Op>, records: &R) -> bool
    ensures { result ≡ list_all (is_read_held (R.records records.now)) ops.now }
{
    for op in ops.as_slice() {
        if !is_read_held(op, records) {
            return false;
        }
    }
    true
}

fn is_read_held<R: Records>(op: &Op, records: &R) -> bool
    ensures { result ≡ is_read_held (R.records records.now) op.now }
{
    match op {
        Op::Range(ask) => is_held(&ask.range.key, records),
        _ => false,
    }
}

fn is_held<R: Records>(key: &Bytes, records: &R) -> bool
    ensures { result ≡ is_some (R.records records.now key.now) }
{
    match records.held(key) {
        None => false,
        Some(_) => true,
    }
}

/// The record of a held key.
fn record_held<'a, R: Records>(key: &Bytes, records: &'a R) -> Option<&'a Kv>
    ensures { option_copied result ≡ record_held (R.records records.now) key.now }
{
    match records.held(key) {
        None => None,
        Some(kv) => kv,
    }
}

fn all_hold<R: Records>(compares: &List<Compare>, records: &R) -> bool
    ensures { result ≡ list_all (snapshot_holds (R.records records.now)) compares.now }
{
    for compare in compares.as_slice() {
        if !holds(compare, record_held(&compare.range.key, records)) {
            return false;
        }
    }
    true
}

fn read_all<R: Records>(alloc: Global, ops: &List<Op>, records: &R) -> Result<List<Body>, NoMemory>
    ensures { IfOk result (λ bodies. bodies ≡ map (snapshot_body (R.records records.now)) ops.now) }
{
    let mut bodies = List::new(alloc);
    for op in ops.as_slice() {
        bodies.push(read(alloc, op, records)?)?;
    }
    Ok(bodies)
}

fn read<R: Records>(alloc: Global, op: &Op, records: &R) -> Result<Body, NoMemory>
    ensures { IfOk result (λ body. body ≡ snapshot_body (R.records records.now) op.now) }
{
    match op {
        Op::Range(ask) => Ok(plain_body(alloc, record_held(&ask.range.key, records))?),
        _ => Ok(Body::Compact),
    }
}

fn plain_body(alloc: Global, kv: Option<&Kv>) -> Result<Body, NoMemory>
    ensures { IfOk result (λ body. body ≡ plain_body (option_to_list (option_copied kv.entry))) }
{
    let mut kvs = List::new(alloc);
    let count = match kv {
        None => 0,
        Some(kv) => {
            kvs.push(kv.copy(alloc)?)?;
            1
        }
    };
    Ok(Body::Range {
        count,
        more: false,
        kvs,
    })
}
