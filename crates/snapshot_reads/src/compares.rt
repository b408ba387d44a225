ghost use Rattle.std.specs.Prelude.{◌≡◌};
ghost use Rattle.std.specs.Option.{option_copied, option_to_list};
ghost use Rattle.store_model.specs.Compares.{holds_of, relation_holds, part_cmp};

use etcd_types::{Compare, Kv, Relation, Target};
use std::cmp::Ordering;

/// Whether the compare holds of a key with this record. Of an absent key numbers count as 0, and no value compares.
pub(crate) fn holds(compare: &Compare, kv: Option<&Kv>) -> bool
    ensures { result ≡ holds_of compare.now (option_to_list (option_copied kv.entry)) }
{
    match kv {
        None => match compare.target {
            Target::Value => false,
            _ => relation_holds(compare.relation, 0u64.cmp(&compare.number)),
        },
        Some(kv) => relation_holds(compare.relation, part_cmp(compare, kv)),
    }
}

fn part_cmp(compare: &Compare, kv: &Kv) -> Ordering
    ensures { result ≡ part_cmp compare.now.target compare.now kv.now }
{
    match compare.target {
        Target::Version => kv.version.cmp(&compare.number),
        Target::Create => kv.create.cmp(&compare.number),
        Target::Modified => kv.modified.cmp(&compare.number),
        Target::Value => kv.value.cmp(&compare.value),
        Target::Lease => kv.lease.cmp(&compare.number),
    }
}

fn relation_holds(relation: Relation, order: Ordering) -> bool
    ensures { result ≡ relation_holds relation order }
{
    match relation {
        Relation::Equal => order.is_eq(),
        Relation::Greater => order.is_gt(),
        Relation::Less => order.is_lt(),
        Relation::NotEqual => !order.is_eq(),
    }
}
