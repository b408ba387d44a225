ghost use Rattle.std.specs.Prelude.{◌≡◌, ◌||◌, IfOk};
ghost use Rattle.std.specs.List.{list_any};
ghost use Rattle.proxy_model.specs.RequestRefusals.{unserved_op, unserved_ops, unserved, field_name, unsupported, op_lacks_key, request_lacks_key};
ghost use Rattle.proxy_model.specs.RequestRefusals.{op_names_session, names_session, is_session, reserved_lease, refusal_of};
ghost use Rattle.store_model.specs.FirstRefusals.{compare_lacks_key};
ghost use Rattle.etcd_types.specs.declared.operation.Op.TheVariants as operation;

use etcd_types::code::{PERMISSION_DENIED, UNIMPLEMENTED};
use etcd_types::{Bytes, Compare, NoMemory, Op, PutAsk, Refusal, Request};
use proxy_model::{FIRST_SESSION, Unserved};
use std::alloc::Global;
use store_refusals::key_not_provided;

/// Why the request is refused before anything else is done about it, if it is: a field that isn't served, an empty key, a
/// lease number that is reserved for sessions, in this order. `NoMemory` where memory was wanting.
pub fn refusal_of(alloc: Global, request: &Request) -> Result<Option<Refusal>, NoMemory>
    ensures { IfOk result (λ refusal. refusal ≡ refusal_of request.now) }
{
    if let Some(field) = unserved(request) {
        return Ok(Some(unsupported(alloc, field)?));
    }
    if lacks_key(request) {
        return Ok(Some(key_not_provided(alloc)?));
    }
    if names_session(request) {
        return Ok(Some(reserved_lease(alloc)?));
    }
    Ok(None)
}

/// The refusal of a request with such a field. `NoMemory` where memory was wanting.
pub fn unsupported(alloc: Global, field: Unserved) -> Result<Refusal, NoMemory>
    ensures { IfOk result (λ refusal. refusal ≡ unsupported field) }
{
    let text: &[u8] = match field {
        Unserved::IgnoreLease => b"proxy: unsupported: ignore_lease",
        Unserved::NestedTxn => b"proxy: unsupported: request_txn",
    };
    Ok(Refusal {
        code: UNIMPLEMENTED,
        text: Bytes::from_slice(alloc, text)?,
    })
}

/// The refusal of a request that names a lease number of the sessions. `NoMemory` where memory was wanting.
pub fn reserved_lease(alloc: Global) -> Result<Refusal, NoMemory>
    ensures { IfOk result (λ refusal. refusal ≡ reserved_lease) }
{
    Ok(Refusal {
        code: PERMISSION_DENIED,
        text: Bytes::from_slice(alloc, b"proxy: lease number is reserved")?,
    })
}

/// The first field of the request, in the order of its text, that isn't served.
pub fn unserved(request: &Request) -> Option<Unserved>
    ensures { result ≡ unserved request.now }
{
    match request {
        Request::Put(ask) => unserved_of_put(ask),
        Request::Txn(txn) => {
            let first = unserved_of_operations(txn.success.as_slice());
            if first.is_some() {
                return first;
            }
            unserved_of_operations(txn.failure.as_slice())
        }
        _ => None,
    }
}

fn unserved_of_put(ask: &PutAsk) -> Option<Unserved>
    ensures { result ≡ unserved_op (operation.Put ask.now) }
{
    if ask.ignore_lease {
        Some(Unserved::IgnoreLease)
    } else {
        None
    }
}

fn unserved_of_operation(operation: &Op) -> Option<Unserved>
    ensures { result ≡ unserved_op operation.now }
{
    match operation {
        Op::Put(ask) => unserved_of_put(ask),
        Op::Txn(_) => Some(Unserved::NestedTxn),
        Op::Range(_) | Op::Delete(_) => None,
    }
}

fn unserved_of_operations(operations: &[Op]) -> Option<Unserved>
    ensures { result ≡ unserved_ops operations.now }
{
    for operation in operations {
        let field = unserved_of_operation(operation);
        if field.is_some() {
            return field;
        }
    }
    None
}

/// Whether a key of a range, a put, a delete or a compare is empty.
pub fn lacks_key(request: &Request) -> bool
    ensures { result ≡ request_lacks_key request.now }
{
    match request {
        Request::Range(ask) => ask.range.key.is_empty(),
        Request::Put(ask) => ask.key.is_empty(),
        Request::Delete(ask) => ask.range.key.is_empty(),
        Request::Txn(txn) => {
            compare_lacks_key(txn.compare.as_slice())
                || some_lacks_key(txn.success.as_slice())
                || some_lacks_key(txn.failure.as_slice())
        }
        _ => false,
    }
}

fn compare_lacks_key(compares: &[Compare]) -> bool
    ensures { result ≡ list_any compare_lacks_key compares.now }
{
    compares.iter().any(|compare| compare.range.key.is_empty())
}

fn some_lacks_key(operations: &[Op]) -> bool
    ensures { result ≡ list_any op_lacks_key operations.now }
{
    operations.iter().any(operation_lacks_key)
}

fn operation_lacks_key(operation: &Op) -> bool
    ensures { result ≡ op_lacks_key operation.now }
{
    match operation {
        Op::Range(ask) => ask.range.key.is_empty(),
        Op::Put(ask) => ask.key.is_empty(),
        Op::Delete(ask) => ask.range.key.is_empty(),
        Op::Txn(_) => false,
    }
}

/// Whether it names a lease number of the sessions: in a put, or as the lease that it is about.
pub fn names_session(request: &Request) -> bool
    ensures { result ≡ names_session request.now }
{
    match request {
        Request::Put(ask) => is_session(ask.lease),
        Request::Txn(txn) => {
            some_names_session(txn.success.as_slice()) || some_names_session(txn.failure.as_slice())
        }
        Request::Grant { lease, .. }
        | Request::Revoke { lease }
        | Request::KeepAlive { lease }
        | Request::TimeToLive { lease, .. } => is_session(*lease),
        _ => false,
    }
}

fn some_names_session(operations: &[Op]) -> bool
    ensures { result ≡ list_any op_names_session operations.now }
{
    operations.iter().any(operation_names_session)
}

fn operation_names_session(operation: &Op) -> bool
    ensures { result ≡ op_names_session operation.now }
{
    match operation {
        Op::Put(ask) => is_session(ask.lease),
        Op::Range(_) | Op::Delete(_) | Op::Txn(_) => false,
    }
}

fn is_session(lease: u64) -> bool
    ensures { result ≡ is_session lease }
{
    lease >= FIRST_SESSION
}
