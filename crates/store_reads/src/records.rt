ghost use Rattle.std.specs.Prelude.{◌≡◌, ◌≤◌, IfOk};
ghost use Rattle.std.specs.Option.{option_copied};
ghost use Rattle.store_model.specs.History.{History, newest, with_revision};
ghost use Rattle.store_model.specs.Records.{record_now};
ghost use Rattle.store_model.specs.Ranges.{records_in};
ghost use Rattle.store_index.specs.Index.{HoldsKept};

use etcd_types::{Bytes, KeyRange, Kv, List, NoMemory};
use std::alloc::Global;
use store_history::after_changes;
use store_index::Index;
use store_model::KeyChange;

/// The newest revision that an operation sees: what the request has changed so far counts as one.
pub fn latest(index: &Index, made: &[KeyChange]) -> u64
    ensures newest { (h : History) → HoldsKept index.now h → result ≡ newest (with_revision h made.now) }
    ensures past { index.now.compacted ≤ result }
{
    if made.is_empty() {
        index.newest
    } else {
        index.newest + 1
    }
}

/// The record of the key.
pub fn record_now(
    alloc: Global,
    index: &Index,
    made: &[KeyChange],
    key: &Bytes,
) -> Result<Option<Kv>, NoMemory>
    ensures { IfOk result (λ found. (h : History) → HoldsKept index.now h → found ≡ record_now (with_revision h made.now) key.now) }
{
    let old = copied(alloc, index.record(key))?;
    Ok(after_changes(alloc, made, key, index.newest + 1, old)?)
}

fn copied(alloc: Global, found: Option<&Kv>) -> Result<Option<Kv>, NoMemory>
    ensures { IfOk result (λ copy. copy ≡ option_copied found.entry) }
{
    match found {
        Some(record) => Ok(Some(record.copy(alloc)?)),
        None => Ok(None),
    }
}

/// The records of the range at a revision, in the order of the keys.
pub fn records_seen(
    index: &Index,
    made: &[KeyChange],
    revision: u64,
    range: &KeyRange,
) -> Result<List<Kv>, NoMemory>
    requires { index.now.compacted ≤ revision }
    ensures { IfOk result (λ kvs. (h : History) → HoldsKept index.now h → kvs ≡ records_in (with_revision h made.now) revision range.now) }
{
    if revision <= index.newest {
        Ok(index.records_at(range, revision)?)
    } else {
        Ok(index.records_with(range, made)?)
    }
}
