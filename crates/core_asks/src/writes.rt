ghost use Rattle.std.specs.Prelude.{◌≡◌, ◌||◌, IfOk, []};
ghost use Rattle.proxy_model.specs.SeveralKeys.{with_written, with_all_written};
ghost use Rattle.core_model.specs.Kinds.{has_some, writes_keys};
ghost use Rattle.core_model.specs.Refusals.{writes_too_much};

use etcd_types::{List, NoMemory, Op, Request};
use lease_txn::written_ranges;
use std::alloc::Global;
use store_refusals::OPERATIONS_LIMIT;

/// Whether the request puts or deletes: a put, a delete, or a transaction with one in either branch. It takes no memory.
pub fn writes_keys(request: &Request) -> bool
    ensures { result ≡ writes_keys request.now }
{
    match request {
        Request::Put(_) | Request::Delete(_) => true,
        Request::Txn(txn) => some_writes(&txn.success) || some_writes(&txn.failure),
        _ => false,
    }
}

/// Whether one of the operations puts or deletes.
#[cycle(writes)]
fn some_writes(operations: &List<Op>) -> bool
    ensures { result ≡ has_some (with_all_written operations.now []) }
{
    for operation in operations.as_slice() {
        if writes(operation) {
            return true;
        }
    }
    false
}

/// Whether the operation puts or deletes, in a transaction in either branch.
#[cycle(writes)]
fn writes(operation: &Op) -> bool
    ensures { result ≡ has_some (with_written operation.now []) }
{
    match operation {
        Op::Range(_) => false,
        Op::Put(_) | Op::Delete(_) => true,
        Op::Txn(txn) => some_writes(&txn.success) || some_writes(&txn.failure),
    }
}

/// Whether it is a transaction that writes more ranges than one transaction can compare.
pub fn writes_too_much(alloc: Global, request: &Request) -> Result<bool, NoMemory>
    ensures { IfOk result (λ much. much ≡ writes_too_much request.now) }
{
    match request {
        Request::Txn(_) => Ok(written_ranges(alloc, request)?.len() as u64 > OPERATIONS_LIMIT),
        _ => Ok(false),
    }
}
