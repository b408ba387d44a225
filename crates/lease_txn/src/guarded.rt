ghost use Rattle.std.specs.Prelude.{◌≡◌, ◌++◌, map, IfOk, IsTrue};
ghost use Rattle.etcd_types.specs.declared.request.Request.TheVariants.{Txn};
ghost use Rattle.proxy_model.specs.Guarded.{guarded, guard, read_owners, write_ops, create_or, delete_part, alone, is_one_key};
ghost use Rattle.proxy_model.specs.SeveralKeys.{written_ranges};
ghost use Rattle.lease_txn.specs.Writes.{IsSeveralKeys, IsTxn};

use crate::asks::{created_at, one, only, read_op};
use crate::parts::parts;
use crate::ranges::add_all_written;
use etcd_types::{Bytes, DeleteAsk, KeyRange, List, NoMemory, Op, Request, TxnAsk};
use namespace_keys::range_under;
use proxy_model::Owned;
use std::alloc::Global;

/// The write of one key by its owner, whose ownership key was created at this revision.
pub fn owner_write(
    alloc: Global,
    prefix: &Bytes,
    write: &Op,
    create: u64,
) -> Result<Request, NoMemory>
    requires { IsTrue (is_one_key write.now) }
    ensures { IfOk result (λ request. request ≡ Txn (guarded prefix.now (alone write.now) (λ k. create))) }
{
    let range = match write {
        Op::Put(ask) => only(alloc, ask.key.copy(alloc)?),
        Op::Delete(ask) => ask.range.copy(alloc)?,
        Op::Range(_) | Op::Txn(_) => unreachable!(),
    };
    let success = one(alloc, write.copy(alloc)?)?;
    Ok(guarded(alloc, prefix, &[range], success, &[], create)?)
}

/// The write of one key that nobody owns.
pub fn guest_write(alloc: Global, prefix: &Bytes, write: &Op) -> Result<Request, NoMemory>
    requires { IsTrue (is_one_key write.now) }
    ensures { IfOk result (λ request. request ≡ Txn (guarded prefix.now (alone write.now) (λ k. 0))) }
{
    Ok(owner_write(alloc, prefix, write, 0)?)
}

/// A write of several keys that nobody owns: a range delete, which goes round the leasing range, or a transaction.
pub fn range_write(alloc: Global, prefix: &Bytes, write: &Request) -> Result<Request, NoMemory>
    requires { IsSeveralKeys write.now }
    ensures { IfOk result (λ request. request ≡ Txn (guarded prefix.now write.now (λ k. 0))) }
{
    Ok(guarded_write(alloc, prefix, write, &[])?)
}

/// A transaction whose writes are of single keys, of which some are owned.
pub fn shared_write(
    alloc: Global,
    prefix: &Bytes,
    write: &Request,
    owned: &List<Owned>,
) -> Result<Request, NoMemory>
    requires { IsTxn write.now }
    ensures { IfOk result (λ request. request ≡ Txn (guarded prefix.now write.now (create_or 0 owned.now))) }
{
    Ok(guarded_write(alloc, prefix, write, owned.as_slice())?)
}

/// Any write, of whose keys some are owned.
pub fn guarded_write(
    alloc: Global,
    prefix: &Bytes,
    write: &Request,
    owned: &[Owned],
) -> Result<Request, NoMemory>
    ensures { IfOk result (λ request. request ≡ Txn (guarded prefix.now write.now (create_or 0 owned.now))) }
{
    let ranges = written_ranges(alloc, write)?;
    let success = write_ops(alloc, prefix, write)?;
    Ok(guarded(alloc, prefix, ranges.as_slice(), success, owned, 0)?)
}

/// The distinct ranges that the write writes, rising.
pub fn written_ranges(alloc: Global, write: &Request) -> Result<Vec<KeyRange>, NoMemory>
    ensures { IfOk result (λ ranges. ranges.items ≡ written_ranges write.now) }
{
    let mut ranges = Vec::new(alloc);
    match write {
        Request::Put(ask) => ranges.push(only(alloc, ask.key.copy(alloc)?))?,
        Request::Delete(ask) => ranges.push(ask.range.copy(alloc)?)?,
        Request::Txn(txn) => {
            add_all_written(alloc, &txn.success, &mut ranges)?;
            add_all_written(alloc, &txn.failure, &mut ranges)?;
        }
        _ => {}
    }
    Ok(ranges)
}

/// The operations that do the write, where its guards hold.
fn write_ops(alloc: Global, prefix: &Bytes, write: &Request) -> Result<List<Op>, NoMemory>
    ensures { IfOk result (λ ops. ops ≡ write_ops prefix.now write.now) }
{
    match write {
        Request::Put(ask) => Ok(one(alloc, Op::Put(ask.copy(alloc)?))?),
        Request::Delete(ask) => Ok(delete_parts(
            alloc,
            parts(alloc, prefix, &ask.range)?,
            ask.prev_kv,
        )?),
        Request::Txn(txn) => Ok(one(alloc, Op::Txn(txn.copy(alloc)?))?),
        _ => Ok(List::new(alloc)),
    }
}

fn delete_parts(alloc: Global, parts: Vec<KeyRange>, prev_kv: bool) -> Result<List<Op>, NoMemory>
    ensures { IfOk result (λ ops. ops ≡ map (delete_part prev_kv) parts.items) }
{
    let mut ops = List::new(alloc);
    for range in parts {
        ops.push(Op::Delete(DeleteAsk { range, prev_kv }))?;
    }
    Ok(ops)
}

/// A transaction behind the ownership keys of these ranges: those of the keys owned have the create revisions named there,
/// and all others this one.
fn guarded(
    alloc: Global,
    prefix: &Bytes,
    ranges: &[KeyRange],
    success: List<Op>,
    owned: &[Owned],
    other: u64,
) -> Result<Request, NoMemory>
    ensures { IfOk result (λ request. request ≡ Txn (record {
      compare = map (guard prefix.now (create_or other owned.now)) ranges.now;
      success = success;
      failure = map (read_owners prefix.now) ranges.now;
    })) }
{
    let mut compare = List::new(alloc);
    let mut failure = List::new(alloc);
    for range in ranges {
        let create = create_of(owned, &range.key, other);
        compare.push(created_at(alloc, range_under(alloc, prefix, range)?, create))?;
        failure.push(read_op(range_under(alloc, prefix, range)?))?;
    }
    Ok(Request::Txn(TxnAsk {
        compare,
        success,
        failure,
    }))
}

/// The create revision named for the key, or this one.
fn create_of(owned: &[Owned], key: &Bytes, other: u64) -> u64
    ensures { result ≡ create_or other owned.now key.now }
{
    for own in owned {
        if own.key == *key {
            return own.create;
        }
    }
    other
}
