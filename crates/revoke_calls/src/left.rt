ghost use Rattle.std.specs.Prelude.{◌≡◌, map, IfOk};
ghost use Rattle.std.specs.Option.{option_copied};
ghost use Rattle.store_model.specs.LeftRecords.{left_by, left_op, lease_of, put_under_lease};
ghost use Rattle.proxy_model.specs.Fits.{branch_of};
ghost use Rattle.wait_model.specs.Operations.{operations, branch};
ghost use Rattle.revoke_calls.specs.Ends.{left_kv, left_in, lefts_of, left_at};
ghost use Rattle.etcd_types.specs.declared.operation.Op.TheVariants.{Put, Delete};

use crate::stages::is_owner;
use etcd_types::{Body, Bytes, DeleteAsk, Kv, List, NoMemory, Op, PutAsk, Reply, Request, TxnAsk};
use lease_table::{Entry, LeaseTable};
use std::alloc::Global;
use std::marker::Model;
use wait_model::Write;

/// The record that a write left at one of its keys.
#[derive(Debug, PartialEq, Eq, Drop)]
pub struct Left {
    pub key: Bytes,
    pub kv: Option<Kv>,
}

/// What a write left at the keys whose entries it compared. Contracts see it as the list of these.
#[derive(Debug, Drop)]
pub struct Lefts {
    items: Vec<Left>,
}

impl Model for Lefts {
    ghost use Rattle.std.specs.Prelude.{List};
    ghost use Rattle.revoke_calls.specs.declared.left.Left.{Left as One};

    ghost Value = { List One };

    ghost view = { λ l. l.items.items };
}

impl Lefts {
    /// All of them, by themselves.
    pub(crate) fn into_vec(self) -> Vec<Left>
        ensures { result.items ≡ self }
    {
        self.items
    }

    /// All of them, in order.
    pub fn as_slice(&self) -> &[Left]
        ensures { result.now ≡ self.now }
    {
        self.items.as_slice()
    }

    /// The first one that is of this key.
    pub fn find(&self, key: &Bytes) -> Option<&Left>
        ensures { option_copied result ≡ left_at key.now self.now }
    {
        find_in(&self.items, key)
    }
}

fn find_in<'a>(lefts: &'a [Left], key: &Bytes) -> Option<&'a Left>
    ensures { option_copied result ≡ left_at key.now lefts.now }
{
    for left in lefts {
        if left.key == *key {
            return Some(left);
        }
    }
    None
}

/// What the write that was done left at the keys whose entries it compared, by its answer.
pub fn lefts_of(
    alloc: Global,
    write: &Write,
    reply: &Reply,
    table: &LeaseTable,
) -> Result<Lefts, NoMemory>
    ensures { IfOk result (λ lefts. lefts ≡ lefts_of write.now reply.now table.now.entries) }
{
    let items = if is_owner(&write.stage) {
        lefts_in(alloc, write, reply, table)?
    } else {
        Vec::new(alloc)
    };
    Ok(Lefts { items })
}

fn lefts_in(
    alloc: Global,
    write: &Write,
    reply: &Reply,
    table: &LeaseTable,
) -> Result<Vec<Left>, NoMemory>
    ensures { IfOk result (λ lefts. lefts.items ≡ map (left_in write.now reply.now table.now.entries) write.now.ranges) }
{
    let mut lefts = Vec::new(alloc);
    for range in write.ranges.as_slice() {
        lefts.push(Left {
            key: range.key.copy(alloc)?,
            kv: left_kv(alloc, write, reply, &range.key, table.find(&range.key))?,
        })?;
    }
    Ok(lefts)
}

fn left_kv(
    alloc: Global,
    write: &Write,
    reply: &Reply,
    key: &Bytes,
    entry: Option<&Entry>,
) -> Result<Option<Kv>, NoMemory>
    ensures { IfOk result (λ left. left ≡ left_kv write.now reply.now key.now (option_copied entry.entry)) }
{
    match entry {
        None => Ok(None),
        Some(entry) => {
            let old = copied(alloc, entry.kv.as_ref())?;
            let revision = reply.header.revision;
            Ok(left_of(alloc, revision, key, &write.request, &reply.body, old)?)
        }
    }
}

fn copied(alloc: Global, kv: Option<&Kv>) -> Result<Option<Kv>, NoMemory>
    ensures { IfOk result (λ copied. copied ≡ option_copied kv.entry) }
{
    match kv {
        None => Ok(None),
        Some(kv) => Ok(Some(kv.copy(alloc)?)),
    }
}

/// The record that a write leaves at a key, by the body that answers it.
fn left_of(
    alloc: Global,
    revision: u64,
    key: &Bytes,
    request: &Request,
    body: &Body,
    old: Option<Kv>,
) -> Result<Option<Kv>, NoMemory>
    ensures { IfOk result (λ left. left ≡ left_by revision key.now (operations request.now body.now) old) }
{
    match request {
        Request::Put(ask) => Ok(left_put(alloc, revision, key, ask, old)?),
        Request::Delete(ask) => Ok(left_delete(key, ask, old)),
        Request::Txn(txn) => Ok(left_txn(alloc, revision, key, txn, body, old)?),
        _ => Ok(old),
    }
}

#[tactic(auto, using(proxy_model::proofs::FitsLaws::of_fits))]
fn left_txn(
    alloc: Global,
    revision: u64,
    key: &Bytes,
    txn: &TxnAsk,
    body: &Body,
    old: Option<Kv>,
) -> Result<Option<Kv>, NoMemory>
    ensures { IfOk result (λ left. left ≡ left_by revision key.now (branch txn.now.success txn.now.failure (branch_of body.now)) old) }
{
    match body {
        Body::Txn {
            succeeded: true,
            ..
        } => Ok(left_by(alloc, revision, key, &txn.success, old)?),
        Body::Txn {
            succeeded: false,
            ..
        } => Ok(left_by(alloc, revision, key, &txn.failure, old)?),
        _ => Ok(old),
    }
}

fn left_by(
    alloc: Global,
    revision: u64,
    key: &Bytes,
    ops: &List<Op>,
    old: Option<Kv>,
) -> Result<Option<Kv>, NoMemory>
    ensures { IfOk result (λ left. left ≡ left_by revision key.now ops.now old) }
{
    let mut left = old;
    for op in ops.as_slice() {
        left = left_op(alloc, revision, key, op, left)?;
    }
    Ok(left)
}

fn left_op(
    alloc: Global,
    revision: u64,
    key: &Bytes,
    op: &Op,
    old: Option<Kv>,
) -> Result<Option<Kv>, NoMemory>
    ensures { IfOk result (λ left. left ≡ left_op revision key.now op.now old) }
{
    match op {
        Op::Put(ask) => Ok(left_put(alloc, revision, key, ask, old)?),
        Op::Delete(ask) => Ok(left_delete(key, ask, old)),
        Op::Range(_) | Op::Txn(_) => Ok(old),
    }
}

fn left_put(
    alloc: Global,
    revision: u64,
    key: &Bytes,
    ask: &PutAsk,
    old: Option<Kv>,
) -> Result<Option<Kv>, NoMemory>
    ensures { IfOk result (λ left. left ≡ left_op revision key.now (Put ask.now) old) }
{
    if ask.key != *key {
        return Ok(old);
    }
    let lease = put_under_lease(ask, old.as_ref());
    let record = Kv::after_put(alloc, old.as_ref(), key, &ask.value, lease, revision)?;
    Ok(Some(record))
}

fn put_under_lease(ask: &PutAsk, old: Option<&Kv>) -> u64
    ensures { result ≡ put_under_lease ask.now (option_copied old.entry) }
{
    if ask.ignore_lease {
        lease_of(old)
    } else {
        ask.lease
    }
}

fn lease_of(old: Option<&Kv>) -> u64
    ensures { result ≡ lease_of (option_copied old.entry) }
{
    match old {
        None => 0,
        Some(kv) => kv.lease,
    }
}

fn left_delete(key: &Bytes, ask: &DeleteAsk, old: Option<Kv>) -> Option<Kv>
    ensures { result ≡ left_op 0 key.now (Delete ask.now) old }
{
    if ask.range.contains(key) { None } else { old }
}
