ghost use Rattle.std.specs.Prelude.{◌≡◌};
ghost use Rattle.std.specs.List.{list_any};
ghost use Rattle.core_model.specs.Refusals.{op_touches, touches};

use etcd_types::{KeyRange, Op, Request};

/// Whether the request puts or deletes one of these keys: a delete in a transaction by any key of its range, one by itself by its
/// key alone, since it goes round them.
pub fn touches(keys: &KeyRange, request: &Request) -> bool
    ensures { result ≡ touches keys.now request.now }
{
    match request {
        Request::Put(ask) => keys.contains(&ask.key),
        Request::Delete(ask) => keys.contains(&ask.range.key),
        Request::Txn(txn) => {
            some_touches(keys, txn.success.as_slice()) || some_touches(keys, txn.failure.as_slice())
        }
        _ => false,
    }
}

fn some_touches(keys: &KeyRange, operations: &[Op]) -> bool
    ensures { result ≡ list_any (op_touches keys.now) operations.now }
{
    operations.iter().any(|op| op_touches(keys, op))
}

fn op_touches(keys: &KeyRange, op: &Op) -> bool
    ensures { result ≡ op_touches keys.now op.now }
{
    match op {
        Op::Put(ask) => keys.contains(&ask.key),
        Op::Delete(ask) => keys.contains(&ask.range.key) || ask.range.overlaps(keys),
        Op::Range(_) | Op::Txn(_) => false,
    }
}
