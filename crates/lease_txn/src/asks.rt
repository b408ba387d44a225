ghost use Rattle.std.specs.Prelude.{◌≡◌, ◌∷◌, [], IfOk};
ghost use Rattle.proxy_model.specs.Asks.{range_ask, read_op, created_at};
ghost use Rattle.etcd_types.specs.Keys.{is_zero};
ghost use Rattle.proxy_model.specs.Prefixes.{only};

use etcd_types::{Bytes, Compare, KeyRange, List, NoMemory, Op, RangeAsk, Relation, Sort, Target};
use std::alloc::Global;

/// The range of the one key.
pub(crate) fn only(alloc: Global, key: Bytes) -> KeyRange
    ensures { result ≡ only key }
{
    KeyRange {
        key,
        end: Bytes::new(alloc),
    }
}

/// Whether these bytes are one zero byte, which as an end stands above every key.
pub(crate) fn is_zero(bytes: &Bytes) -> bool
    ensures { result ≡ is_zero bytes.now }
{
    match bytes.as_slice() {
        [only] => *only == 0,
        _ => false,
    }
}

/// A read of all records of a range, as they are now.
pub(crate) fn read_op(range: KeyRange) -> Op
    ensures { result ≡ read_op range }
{
    Op::Range(RangeAsk {
        range,
        revision: 0,
        limit: 0,
        serializable: false,
        keys_only: false,
        count_only: false,
        sort: Sort {
            order: 0,
            target: 0,
            min_mod: 0,
            max_mod: 0,
            min_create: 0,
            max_create: 0,
        },
    })
}

/// A compare that holds where each key of the range was created at this revision; at 0, where there is none.
pub(crate) fn created_at(alloc: Global, range: KeyRange, revision: u64) -> Compare
    ensures { result ≡ created_at range revision }
{
    Compare {
        range,
        target: Target::Create,
        relation: Relation::Equal,
        number: revision,
        value: Bytes::new(alloc),
    }
}

/// The list of one.
pub(crate) fn one<T: Drop>(alloc: Global, item: T) -> Result<List<T>, NoMemory>
    ensures { IfOk result (λ list. list ≡ item ∷ []) }
{
    let mut list = List::new(alloc);
    list.push(item)?;
    Ok(list)
}

/// The list of two.
pub(crate) fn two<T: Drop>(alloc: Global, first: T, second: T) -> Result<List<T>, NoMemory>
    ensures { IfOk result (λ list. list ≡ first ∷ second ∷ []) }
{
    let mut list = one(alloc, first)?;
    list.push(second)?;
    Ok(list)
}
