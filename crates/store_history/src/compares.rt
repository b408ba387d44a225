ghost use Rattle.std.specs.Prelude.{◌≡◌};
ghost use Rattle.std.specs.List.{list_all};
ghost use Rattle.store_model.specs.Compares.{relation_holds, part_cmp, record_holds, absent_holds, holds_of};

use etcd_types::{Compare, Kv, Relation, Target};
use std::cmp::Ordering;

/// Whether the compare holds of every one of these records, which are those of its range.
#[tactic(auto, using(crate::proofs::CompareLemmas::of_compares))]
pub fn holds_of(compare: &Compare, records: &[Kv]) -> bool
    ensures { result ≡ holds_of compare.now records.now }
{
    if records.is_empty() {
        return absent_holds(compare);
    }
    holds_of_all(compare, records)
}

fn holds_of_all(compare: &Compare, records: &[Kv]) -> bool
    ensures { result ≡ list_all (record_holds compare.now) records.now }
{
    records.iter().all(|record| record_holds(compare, record))
}

fn record_holds(compare: &Compare, record: &Kv) -> bool
    ensures { result ≡ record_holds compare.now «record».now }
{
    relation_holds(compare.relation, part_cmp(compare, record))
}

fn part_cmp(compare: &Compare, record: &Kv) -> Ordering
    ensures { result ≡ part_cmp compare.now.target compare.now «record».now }
{
    match compare.target {
        Target::Version => record.version.cmp(&compare.number),
        Target::Create => record.create.cmp(&compare.number),
        Target::Modified => record.modified.cmp(&compare.number),
        Target::Value => record.value.cmp(&compare.value),
        Target::Lease => record.lease.cmp(&compare.number),
    }
}

/// Of a range without a key, numbers count as 0, and no compare of a value holds.
fn absent_holds(compare: &Compare) -> bool
    ensures { result ≡ absent_holds compare.now.target compare.now }
{
    match compare.target {
        Target::Version | Target::Create | Target::Modified | Target::Lease => {
            relation_holds(compare.relation, 0.cmp(&compare.number))
        }
        Target::Value => false,
    }
}

fn relation_holds(relation: Relation, ordering: Ordering) -> bool
    ensures { result ≡ relation_holds relation ordering }
{
    match relation {
        Relation::Equal => ordering.is_eq(),
        Relation::Greater => ordering.is_gt(),
        Relation::Less => ordering.is_lt(),
        Relation::NotEqual => !ordering.is_eq(),
    }
}
