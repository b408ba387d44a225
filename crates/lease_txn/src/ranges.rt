ghost use Rattle.std.specs.Prelude.{◌≡◌, ◌≤◌, length, IfOk, IfErr, OnOk};
ghost use Rattle.std.specs.List.{insert};
ghost use Rattle.proxy_model.specs.SeveralKeys.{with_range, with_written, with_all_written};

use crate::asks::only;
use etcd_types::{KeyRange, List, NoMemory, Op};
use std::alloc::Global;
use std::cmp::Ordering;

/// Adds the ranges that the operation writes, in a transaction those of both branches.
#[cycle(written)]
#[tactic(auto, using(proxy_model::proofs::WrittenLaws::of_written))]
fn add_written(alloc: Global, op: &Op, ranges: &mut Vec<KeyRange>) -> Result<(), NoMemory>
    ensures { OnOk result (ranges.new.items ≡ with_written op.now ranges.old.items) }
{
    match op {
        Op::Range(_) => Ok(()),
        Op::Put(ask) => add_range(ranges, only(alloc, ask.key.copy(alloc)?)),
        Op::Delete(ask) => add_range(ranges, ask.range.copy(alloc)?),
        Op::Txn(txn) => {
            add_all_written(alloc, &txn.success, ranges)?;
            add_all_written(alloc, &txn.failure, ranges)
        }
    }
}

/// Adds the ranges that the operations write.
#[cycle(written)]
pub(crate) fn add_all_written(
    alloc: Global,
    ops: &List<Op>,
    ranges: &mut Vec<KeyRange>,
) -> Result<(), NoMemory>
    ensures { OnOk result (ranges.new.items ≡ with_all_written ops.now ranges.old.items) }
{
    for op in ops.as_slice() {
        add_written(alloc, op, ranges)?;
    }
    Ok(())
}

/// Adds the range in its place, unless it is there.
fn add_range(ranges: &mut Vec<KeyRange>, range: KeyRange) -> Result<(), NoMemory>
    ensures { OnOk result (ranges.new.items ≡ with_range range ranges.old.items) }
{
    match place_of(ranges.as_slice(), &range) {
        Ok(_) => Ok(()),
        Err(gap) => Ok(ranges.insert(gap, range)?),
    }
}

/// Where the range is, or where it would go.
fn place_of(ranges: &[KeyRange], range: &KeyRange) -> Result<usize, usize>
    ensures found { IfOk result (λ place. with_range range.now ranges.now ≡ ranges.now) }
    ensures absent { IfErr result (λ gap. with_range range.now ranges.now ≡ insert ranges.now gap range.now) }
    ensures in_range { IfErr result (λ gap. gap ≤ length ranges.now) }
{
    for (at, other) in ranges.iter().enumerate() {
        match range.cmp(other) {
            Ordering::Less => return Err(at),
            Ordering::Equal => return Ok(at),
            Ordering::Greater => {}
        }
    }
    Err(ranges.len())
}
