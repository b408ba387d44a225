ghost use Rattle.std.specs.Prelude.{◌≡◌, ◌++◌, IfOk, ◌∷◌, [], Ok, Err, None, Some};
ghost use Rattle.etcd_types.specs.declared.request.Request.TheVariants.{Txn};
ghost use Rattle.lease_txn.specs.Results.{Reads};
ghost use Rattle.proxy_model.specs.Foreign.{ask_revoke};
ghost use Rattle.proxy_model.specs.Asks.{created_at};
ghost use Rattle.proxy_model.specs.Prefixes.{only};
ghost use Rattle.proxy_model.specs.Leaving.{rescind, guard_held};

use crate::asks::{created_at, one, only};
use crate::fits::{branch_of, is_delete, is_put};
use crate::not_shape::NotShape;
use crate::owner::REVOKE;
use etcd_types::{Bytes, DeleteAsk, List, NoMemory, Op, PutAsk, Reply, Request, TxnAsk};
use namespace_keys::key_under;
use std::alloc::Global;

/// Asks the owner of the key to give it up, as long as its ownership key is the one created at this revision.
pub fn ask_revoke(
    alloc: Global,
    prefix: &Bytes,
    key: &Bytes,
    create: u64,
) -> Result<Request, NoMemory>
    ensures { IfOk result (λ request. request ≡ Txn (ask_revoke prefix.now key.now create)) }
{
    let word = Op::Put(PutAsk {
        key: key_under(alloc, prefix, key)?,
        value: Bytes::from_slice(alloc, REVOKE)?,
        lease: 0,
        prev_kv: false,
        ignore_lease: true,
    });
    Ok(on_owner(alloc, prefix, key, create, word)?)
}

/// Gives the key up: deletes its ownership key, as long as it is the one created at this revision.
pub fn rescind(alloc: Global, prefix: &Bytes, key: &Bytes, create: u64) -> Result<Request, NoMemory>
    ensures { IfOk result (λ request. request ≡ Txn (rescind prefix.now key.now create)) }
{
    let delete = Op::Delete(DeleteAsk {
        range: only(alloc, key_under(alloc, prefix, key)?),
        prev_kv: false,
    });
    Ok(on_owner(alloc, prefix, key, create, delete)?)
}

/// Whether the guard of a rescind or a revoke call held.
pub fn read_guard(reply: &Reply) -> Result<bool, NotShape>
    ensures { Reads result (guard_held reply.now.body) }
{
    match branch_of(&reply.body) {
        Some((false, [])) => Ok(false),
        Some((true, [body])) if is_put(body) || is_delete(body) => Ok(true),
        _ => Err(NotShape::Shape),
    }
}

/// The operation, where the ownership key is the one created at this revision.
fn on_owner(
    alloc: Global,
    prefix: &Bytes,
    key: &Bytes,
    create: u64,
    op: Op,
) -> Result<Request, NoMemory>
    ensures { IfOk result (λ request. request ≡ Txn (record { compare = created_at (only (prefix.now ++ key.now)) create ∷ []; success = op ∷ []; failure = [] })) }
{
    let own = created_at(alloc, only(alloc, key_under(alloc, prefix, key)?), create);
    Ok(Request::Txn(TxnAsk {
        compare: one(alloc, own)?,
        success: one(alloc, op)?,
        failure: List::new(alloc),
    }))
}
