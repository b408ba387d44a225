ghost use Rattle.std.specs.Prelude.{◌≡◌};
ghost use Rattle.std.specs.List.{list_all};
ghost use Rattle.server_model.specs.CallKinds.{kind_of, range_kind, grant_kind, txn_kind, reads_one, is_read};

use etcd_types::{KeyRange, List, Op, Request, TxnAsk};
use outside::CallKind;
use proxy_model::FIRST_SESSION;

/// The kind of a call that reads a range.
fn range_kind(range: &KeyRange) -> CallKind
    ensures { result ≡ range_kind range.now }
{
    if range.is_one() {
        CallKind::Reads
    } else {
        CallKind::Scans
    }
}

/// The kind of a call that grants a lease.
fn grant_kind(lease: u64) -> CallKind
    ensures { result ≡ grant_kind lease }
{
    if lease >= FIRST_SESSION {
        CallKind::Session(lease)
    } else {
        CallKind::Reads
    }
}

/// Whether the operation reads one key.
fn reads_one(operation: &Op) -> bool
    ensures { result ≡ reads_one operation.now }
{
    match operation {
        Op::Range(ask) => ask.range.is_one(),
        Op::Put(_) | Op::Delete(_) | Op::Txn(_) => false,
    }
}

/// Whether the operation is a range.
fn is_read(operation: &Op) -> bool
    ensures { result ≡ is_read operation.now }
{
    matches!(operation, Op::Range(_))
}

fn all_read_one(operations: &List<Op>) -> bool
    ensures { result ≡ list_all reads_one operations.now }
{
    operations
        .as_slice()
        .iter()
        .all(|operation| reads_one(operation))
}

fn all_read(operations: &List<Op>) -> bool
    ensures { result ≡ list_all is_read operations.now }
{
    operations
        .as_slice()
        .iter()
        .all(|operation| is_read(operation))
}

/// The kind of a call that makes a transaction.
fn txn_kind(txn: &TxnAsk) -> CallKind
    ensures { result ≡ txn_kind txn.now }
{
    if all_read_one(&txn.success) && all_read_one(&txn.failure) {
        CallKind::Reads
    } else if all_read(&txn.success) && all_read(&txn.failure) {
        CallKind::Scans
    } else {
        CallKind::Writes
    }
}

/// What a call of a request is for.
pub fn kind_of(request: &Request) -> CallKind
    ensures { result ≡ kind_of request.now }
{
    match request {
        Request::Range(ask) => range_kind(&ask.range),
        Request::Txn(txn) => txn_kind(txn),
        Request::Grant { lease, .. } => grant_kind(*lease),
        Request::Put(_) | Request::Delete(_) | Request::Compact { .. } | Request::Revoke { .. } =>
            CallKind::Writes,
        Request::KeepAlive { .. }
        | Request::TimeToLive { .. }
        | Request::Leases
        | Request::Watch(_) => CallKind::Reads,
    }
}
