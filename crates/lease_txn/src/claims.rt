ghost use Rattle.std.specs.Prelude.{◌≡◌, IfOk};
ghost use Rattle.etcd_types.specs.declared.request.Request.TheVariants.{Txn};
ghost use Rattle.lease_txn.specs.Results.{Reads};
ghost use Rattle.proxy_model.specs.Acquire.{acquire, claimed, claim_of};
ghost use Rattle.std.specs.Option.{option_copied};

use crate::asks::{created_at, only, read_op, two};
use crate::fits::{branch_of, fits_txn, record_of};
use crate::not_shape::NotShape;
use crate::owner::owner_in;
use etcd_types::{
    Body, Bytes, Compare, Kv, NoMemory, Op, PutAsk, Relation, Reply, Request, Target, TxnAsk,
};
use namespace_keys::key_under;
use proxy_model::Claim;
use std::alloc::Global;

/// Takes the ownership of the key under this session, where nobody has it and no lease holds the key's record; and reads
/// the record.
pub fn acquire(alloc: Global, prefix: &Bytes, key: &Bytes, lease: u64) -> Result<Request, NoMemory>
    ensures { IfOk result (λ request. request ≡ Txn (acquire prefix.now key.now lease)) }
{
    Ok(Request::Txn(acquire_ask(alloc, prefix, key, lease)?))
}

fn acquire_ask(alloc: Global, prefix: &Bytes, key: &Bytes, lease: u64) -> Result<TxnAsk, NoMemory>
    ensures { IfOk result (λ txn. txn ≡ acquire prefix.now key.now lease) }
{
    let free = created_at(alloc, only(alloc, key_under(alloc, prefix, key)?), 0);
    let unleased = Compare {
        range: only(alloc, key.copy(alloc)?),
        target: Target::Lease,
        relation: Relation::Equal,
        number: 0,
        value: Bytes::new(alloc),
    };
    let own = Op::Put(PutAsk {
        key: key_under(alloc, prefix, key)?,
        value: Bytes::new(alloc),
        lease,
        prev_kv: false,
        ignore_lease: false,
    });
    let owner = read_op(only(alloc, key_under(alloc, prefix, key)?));
    Ok(TxnAsk {
        compare: two(alloc, free, unleased)?,
        success: two(alloc, read_op(only(alloc, key.copy(alloc)?)), own)?,
        failure: two(alloc, read_op(only(alloc, key.copy(alloc)?)), owner)?,
    })
}

/// What the answer to an acquire of the key says. `Shape` comes exactly where it is none that an acquire can have.
pub fn read_acquire(
    alloc: Global,
    prefix: &Bytes,
    key: &Bytes,
    reply: Reply,
) -> Result<Claim, NotShape>
    ensures { Reads result (claimed prefix.now key.now reply) }
{
    let txn = acquire_ask(alloc, prefix, key, 0)?;
    if !fits_txn(&txn, &reply.body) {
        return Err(NotShape::Shape);
    }
    match branch_of(&reply.body) {
        None => Err(NotShape::Shape),
        Some((succeeded, bodies)) => {
            Ok(claim_of(alloc, prefix, reply.header.revision, succeeded, bodies)?)
        }
    }
}

fn claim_of(
    alloc: Global,
    prefix: &Bytes,
    revision: u64,
    succeeded: bool,
    bodies: &[Body],
) -> Result<Claim, NoMemory>
    ensures { IfOk result (λ claim. claim ≡ claim_of prefix.now revision succeeded bodies.now) }
{
    let kv = copied(alloc, record_of(bodies, 0))?;
    if succeeded {
        return Ok(Claim::Acquired {
            create: revision,
            kv,
        });
    }
    let owner = owner_in(alloc, prefix, record_of(bodies, 1))?;
    Ok(Claim::OwnedBy { kv, owner })
}

fn copied(alloc: Global, kv: Option<&Kv>) -> Result<Option<Kv>, NoMemory>
    ensures { IfOk result (λ copied. copied ≡ option_copied kv.entry) }
{
    match kv {
        None => Ok(None),
        Some(kv) => Ok(Some(kv.copy(alloc)?)),
    }
}
