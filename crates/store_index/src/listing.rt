ghost use Rattle.std.specs.Prelude.{◌≡◌, ◌++◌, length, map, min, OnOk, IfOk};
ghost use Rattle.std.specs.List.{flat_map};
ghost use Rattle.std.specs.Option.{option_to_list};
ghost use Rattle.std.specs.Range.Bound.{bound_map};
ghost use Rattle.etcd_types.specs.Keys.{is_zero};
ghost use Rattle.store_index.specs.Bounds.{BoundsOf};
ghost use Rattle.store_index.specs.Maps.{AreOrdered, left_by, shown_by};

use crate::key_versions::KeyVersions;
use crate::reading::left_by;
use compaction_model::Version;
use etcd_types::{Bytes, KeyRange, Kv, List, NoMemory};
use std::alloc::Global;
use std::collections::BTreeMap;
use std::ops::Bound;

/// The records of the range that the versions up to a revision left, or all versions where none is named, in the order of the
/// keys.
pub(crate) fn records_in(
    alloc: Global,
    map: &BTreeMap<Bytes, KeyVersions>,
    range: &KeyRange,
    up_to: Option<u64>,
) -> Result<List<Kv>, NoMemory>
    ensures shown { IfOk result (λ kvs. kvs ≡ shown_by (left_by up_to) range.now map.now.entries) }
    ensures ordered { AreOrdered map.now.entries }
{
    // They are found before they are copied: the memory that the next ones lie in is then read while the first ones are looked at.
    let mut found = Vec::new(alloc);
    for (_, versions) in map.range(bounds(range)) {
        find_left(&mut found, versions.as_slice(), up_to)?;
    }
    Ok(copies(alloc, found.as_slice())?)
}

/// Adds the record that the versions left to those found, where there is one.
fn find_left<'a>(
    found: &mut Vec<&'a Kv>,
    versions: &'a [Version],
    up_to: Option<u64>,
) -> Result<(), NoMemory>
    ensures { OnOk result (map (λ r. r.now) found.new.items ≡ map (λ r. r.now) found.old.items ++ option_to_list (left_by up_to versions.now)) }
{
    if let Some(record) = left_by(versions, up_to) {
        found.push(record)?;
    }
    Ok(())
}

fn copies(alloc: Global, records: &[&Kv]) -> Result<List<Kv>, NoMemory>
    ensures { IfOk result (λ kvs. kvs ≡ map (λ r. r.now) records.now) }
{
    let mut kvs = List::with_room(alloc, records.len())?;
    for record in records {
        kvs.push(record.copy(alloc)?)?;
    }
    Ok(kvs)
}

/// How many versions there are, or the last number of 64 bits where there are more.
pub(crate) fn count_versions(map: &BTreeMap<Bytes, KeyVersions>) -> u64
    ensures count { result ≡ min (length (flat_map (λ e. e.1) map.now.entries)) 0xffff_ffff_ffff_ffff }
    ensures ordered { AreOrdered map.now.entries }
{
    let mut count: u64 = 0;
    for (_, versions) in map.iter() {
        count = count.saturating_add(versions.as_slice().len() as u64);
    }
    count
}

/// Adds the record that the versions left, where there is one.
pub(crate) fn add_left(
    alloc: Global,
    kvs: &mut List<Kv>,
    versions: &[Version],
    up_to: Option<u64>,
) -> Result<(), NoMemory>
    ensures { OnOk result (kvs.new ≡ kvs.old ++ option_to_list (left_by up_to versions.now)) }
{
    if let Some(record) = left_by(versions, up_to) {
        kvs.push(record.copy(alloc)?)?;
    }
    Ok(())
}

/// The bounds in the order of keys between which the keys of the range lie.
#[tactic(auto, using(crate::proofs::BoundLemmas::bounds_of_ranges))]
fn bounds(range: &KeyRange) -> (Bound<&Bytes>, Bound<&Bytes>)
    ensures { BoundsOf range.now (bound_map (λ x. x.now) result.0) (bound_map (λ x. x.now) result.1) }
{
    let key = &range.key;
    if range.is_one() {
        return (Bound::Included(key), Bound::Included(key));
    }
    if is_zero(&range.end) {
        return if is_zero(key) {
            (Bound::Unbounded, Bound::Unbounded)
        } else {
            (Bound::Included(key), Bound::Unbounded)
        };
    }
    if key.cmp(&range.end).is_le() {
        (Bound::Included(key), Bound::Excluded(&range.end))
    } else {
        (Bound::Included(key), Bound::Excluded(key))
    }
}

/// Whether the key is one zero byte.
fn is_zero(key: &Bytes) -> bool
    ensures { result ≡ is_zero key.now }
{
    match key.as_slice() {
        [only] => *only == 0,
        _ => false,
    }
}
