ghost use Rattle.std.specs.Prelude.{◌≡◌, IfOk, map};
ghost use Rattle.proxy_model.specs.Wrapped.{range_under, put_under, delete_under, compare_under, watch_under, operation_under, transaction_under};

use crate::prefix::{key_under, range_under};
use etcd_types::{
    Bytes, Compare, DeleteAsk, List, NoMemory, Op, PutAsk, RangeAsk, TxnAsk, WatchAsk,
};
use std::alloc::Global;

pub(crate) fn wrap_range(
    alloc: Global,
    prefix: &Bytes,
    ask: &RangeAsk,
) -> Result<RangeAsk, NoMemory>
    ensures { IfOk result (λ wrapped. wrapped ≡ range_under prefix.now ask.now) }
{
    Ok(RangeAsk {
        range: range_under(alloc, prefix, &ask.range)?,
        revision: ask.revision,
        limit: ask.limit,
        serializable: ask.serializable,
        keys_only: ask.keys_only,
        count_only: ask.count_only,
        sort: ask.sort,
    })
}

pub(crate) fn wrap_put(alloc: Global, prefix: &Bytes, ask: &PutAsk) -> Result<PutAsk, NoMemory>
    ensures { IfOk result (λ wrapped. wrapped ≡ put_under prefix.now ask.now) }
{
    Ok(PutAsk {
        key: key_under(alloc, prefix, &ask.key)?,
        value: ask.value.copy(alloc)?,
        lease: ask.lease,
        prev_kv: ask.prev_kv,
        ignore_lease: ask.ignore_lease,
    })
}

pub(crate) fn wrap_delete(
    alloc: Global,
    prefix: &Bytes,
    ask: &DeleteAsk,
) -> Result<DeleteAsk, NoMemory>
    ensures { IfOk result (λ wrapped. wrapped ≡ delete_under prefix.now ask.now) }
{
    Ok(DeleteAsk {
        range: range_under(alloc, prefix, &ask.range)?,
        prev_kv: ask.prev_kv,
    })
}

pub(crate) fn wrap_watch(
    alloc: Global,
    prefix: &Bytes,
    ask: &WatchAsk,
) -> Result<WatchAsk, NoMemory>
    ensures { IfOk result (λ wrapped. wrapped ≡ watch_under prefix.now ask.now) }
{
    Ok(WatchAsk {
        range: range_under(alloc, prefix, &ask.range)?,
        start: ask.start,
        no_put: ask.no_put,
        no_delete: ask.no_delete,
        prev_kv: ask.prev_kv,
        progress: ask.progress,
    })
}

#[cycle(operation_wrap)]
pub(crate) fn wrap_transaction(
    alloc: Global,
    prefix: &Bytes,
    ask: &TxnAsk,
) -> Result<TxnAsk, NoMemory>
    ensures { IfOk result (λ wrapped. wrapped ≡ transaction_under prefix.now ask.now) }
{
    Ok(TxnAsk {
        compare: wrap_compares(alloc, prefix, &ask.compare)?,
        success: wrap_operations(alloc, prefix, &ask.success)?,
        failure: wrap_operations(alloc, prefix, &ask.failure)?,
    })
}

#[cycle(operation_wrap)]
fn wrap_operations(
    alloc: Global,
    prefix: &Bytes,
    operations: &List<Op>,
) -> Result<List<Op>, NoMemory>
    ensures { IfOk result (λ wrapped. wrapped ≡ map (operation_under prefix.now) operations.now) }
{
    let mut wrapped = List::new(alloc);
    for operation in operations.as_slice() {
        wrapped.push(wrap_operation(alloc, prefix, operation)?)?;
    }
    Ok(wrapped)
}

#[cycle(operation_wrap)]
#[tactic(auto, using(crate::proofs::Nested::nested_operations))]
fn wrap_operation(alloc: Global, prefix: &Bytes, operation: &Op) -> Result<Op, NoMemory>
    ensures { IfOk result (λ wrapped. wrapped ≡ operation_under prefix.now operation.now) }
{
    match operation {
        Op::Range(ask) => Ok(Op::Range(wrap_range(alloc, prefix, ask)?)),
        Op::Put(ask) => Ok(Op::Put(wrap_put(alloc, prefix, ask)?)),
        Op::Delete(ask) => Ok(Op::Delete(wrap_delete(alloc, prefix, ask)?)),
        Op::Txn(ask) => Ok(Op::Txn(wrap_transaction(alloc, prefix, ask)?)),
    }
}

fn wrap_compares(
    alloc: Global,
    prefix: &Bytes,
    compares: &List<Compare>,
) -> Result<List<Compare>, NoMemory>
    ensures { IfOk result (λ wrapped. wrapped ≡ map (compare_under prefix.now) compares.now) }
{
    let mut wrapped = List::new(alloc);
    for compare in compares.as_slice() {
        wrapped.push(wrap_compare(alloc, prefix, compare)?)?;
    }
    Ok(wrapped)
}

fn wrap_compare(alloc: Global, prefix: &Bytes, compare: &Compare) -> Result<Compare, NoMemory>
    ensures { IfOk result (λ wrapped. wrapped ≡ compare_under prefix.now compare.now) }
{
    Ok(Compare {
        range: range_under(alloc, prefix, &compare.range)?,
        target: compare.target,
        relation: compare.relation,
        number: compare.number,
        value: compare.value.copy(alloc)?,
    })
}
