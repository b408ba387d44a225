ghost use Rattle.std.specs.Prelude.{◌≡◌, IfOk};
ghost use Rattle.store_model.specs.Refusals as refusal_of;

use etcd_types::code::{
    FAILED_PRECONDITION, INVALID_ARGUMENT, NOT_FOUND, OUT_OF_RANGE, UNIMPLEMENTED,
};
use etcd_types::{Bytes, NoMemory, Refusal};
use std::alloc::Global;

fn refusal(alloc: Global, code: u32, text: &[u8]) -> Result<Refusal, NoMemory>
    ensures { IfOk result (λ made. made ≡ record { code = code; text = text.now }) }
{
    Ok(Refusal {
        code,
        text: Bytes::from_slice(alloc, text)?,
    })
}

/// A key of the request is empty.
pub fn key_not_provided(alloc: Global) -> Result<Refusal, NoMemory>
    ensures { IfOk result (λ made. made ≡ refusal_of.key_not_provided) }
{
    Ok(refusal(alloc, INVALID_ARGUMENT, b"etcdserver: key is not provided")?)
}

/// A list of a transaction puts a key twice, or puts and deletes it.
pub fn duplicate_key(alloc: Global) -> Result<Refusal, NoMemory>
    ensures { IfOk result (λ made. made ≡ refusal_of.duplicate_key) }
{
    Ok(refusal(
        alloc,
        INVALID_ARGUMENT,
        b"etcdserver: duplicate key given in txn request",
    )?)
}

/// A list of a transaction is longer than allowed.
pub fn too_many_operations(alloc: Global) -> Result<Refusal, NoMemory>
    ensures { IfOk result (λ made. made ≡ refusal_of.too_many_operations) }
{
    Ok(refusal(
        alloc,
        INVALID_ARGUMENT,
        b"etcdserver: too many operations in txn request",
    )?)
}

/// A put that ignores its lease finds no key. The text is this store's own.
pub fn key_not_found(alloc: Global) -> Result<Refusal, NoMemory>
    ensures { IfOk result (λ made. made ≡ refusal_of.key_not_found) }
{
    Ok(refusal(alloc, INVALID_ARGUMENT, b"etcdserver: key not found")?)
}

/// The lease that a put names, or that is to be revoked, is not there.
pub fn lease_not_found(alloc: Global) -> Result<Refusal, NoMemory>
    ensures { IfOk result (λ made. made ≡ refusal_of.lease_not_found) }
{
    Ok(refusal(alloc, NOT_FOUND, b"etcdserver: requested lease not found")?)
}

/// The lease to be granted is in use.
pub fn lease_exists(alloc: Global) -> Result<Refusal, NoMemory>
    ensures { IfOk result (λ made. made ≡ refusal_of.lease_exists) }
{
    Ok(refusal(
        alloc,
        FAILED_PRECONDITION,
        b"etcdserver: lease already exists",
    )?)
}

/// The revision is below the compaction revision.
pub fn compacted_revision(alloc: Global) -> Result<Refusal, NoMemory>
    ensures { IfOk result (λ made. made ≡ refusal_of.compacted_revision) }
{
    Ok(refusal(
        alloc,
        OUT_OF_RANGE,
        b"etcdserver: mvcc: required revision has been compacted",
    )?)
}

/// The revision is above the newest.
pub fn future_revision(alloc: Global) -> Result<Refusal, NoMemory>
    ensures { IfOk result (λ made. made ≡ refusal_of.future_revision) }
{
    Ok(refusal(
        alloc,
        OUT_OF_RANGE,
        b"etcdserver: mvcc: required revision is a future revision",
    )?)
}

/// The sort or a filter of a range is not supported. The text is this store's own.
pub fn unsupported(alloc: Global) -> Result<Refusal, NoMemory>
    ensures { IfOk result (λ made. made ≡ refusal_of.unsupported) }
{
    Ok(refusal(alloc, UNIMPLEMENTED, b"store: unsupported")?)
}
