ghost use Rattle.std.specs.Prelude.{◌≡◌};
ghost use Rattle.core_model.specs.Kinds.{writes_keys, kind_of, is_read, is_ordered, is_body_of};

use core_model::CallKind;
use etcd_types::{Body, Request};

/// The kind of a client's call, where `writes` says whether it puts or deletes.
pub fn kind_of(request: &Request, writes: bool) -> CallKind
    requires { writes ≡ writes_keys request.now }
    ensures { result ≡ kind_of request.now }
{
    match request {
        Request::Range(_) | Request::Watch(_) => CallKind::Range,
        Request::Put(_) => CallKind::Put,
        Request::Delete(_) => CallKind::Delete,
        Request::Txn(_) if writes => CallKind::WriteTxn,
        Request::Txn(_) => CallKind::ReadTxn,
        Request::Compact { .. } => CallKind::Compact,
        Request::Grant { .. } => CallKind::Grant,
        Request::Revoke { .. } => CallKind::Revoke,
        Request::KeepAlive { .. } => CallKind::KeepAlive,
        Request::TimeToLive { .. } => CallKind::TimeToLive,
        Request::Leases => CallKind::Leases,
    }
}

/// Whether a lost one may be sent to the next member: doing it twice does no harm.
pub fn is_read(kind: CallKind) -> bool
    ensures { result ≡ is_read kind }
{
    match kind {
        CallKind::Range | CallKind::ReadTxn | CallKind::TimeToLive | CallKind::Leases => true,
        CallKind::WriteTxn
        | CallKind::Put
        | CallKind::Delete
        | CallKind::Compact
        | CallKind::Grant
        | CallKind::Revoke
        | CallKind::KeepAlive => false,
    }
}

/// Whether its answer shows records, and so must be no older than what was seen before it was sent.
pub fn is_ordered(kind: CallKind) -> bool
    ensures { result ≡ is_ordered kind }
{
    match kind {
        CallKind::Range | CallKind::ReadTxn => true,
        CallKind::WriteTxn
        | CallKind::Put
        | CallKind::Delete
        | CallKind::Compact
        | CallKind::Grant
        | CallKind::Revoke
        | CallKind::KeepAlive
        | CallKind::TimeToLive
        | CallKind::Leases => false,
    }
}

/// Whether a call of this kind can be answered with such a body.
pub fn is_body_of(kind: CallKind, body: &Body) -> bool
    ensures { result ≡ is_body_of kind body.now }
{
    match body {
        Body::Range { .. } => matches!(kind, CallKind::Range),
        Body::Txn { .. } => matches!(kind, CallKind::ReadTxn | CallKind::WriteTxn),
        Body::Put { .. } => matches!(kind, CallKind::Put),
        Body::Delete { .. } => matches!(kind, CallKind::Delete),
        Body::Compact => matches!(kind, CallKind::Compact),
        Body::Grant { .. } => matches!(kind, CallKind::Grant),
        Body::Revoke => matches!(kind, CallKind::Revoke),
        Body::KeepAlive { .. } => matches!(kind, CallKind::KeepAlive),
        Body::TimeToLive { .. } => matches!(kind, CallKind::TimeToLive),
        Body::Leases { .. } => matches!(kind, CallKind::Leases),
    }
}
