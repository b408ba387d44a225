ghost use Rattle.std.specs.Prelude.{◌≡◌, IfOk};

use crate::bytes::Bytes;
use crate::key_range::KeyRange;
use crate::list::List;
use crate::no_memory::NoMemory;
use std::alloc::Global;

/// How a range is to be sorted and filtered by revisions: the numbers of the API, each 0 by default.
#[derive(Clone, Copy, Debug, PartialEq, Eq)]
pub struct Sort {
    /// 0 none, 1 ascending, 2 descending.
    pub order: u8,
    /// 0 key, 1 version, 2 create revision, 3 mod revision, 4 value.
    pub target: u8,
    /// The bounds of the mod revision and of the create revision, both included.
    pub min_mod: u64,
    pub max_mod: u64,
    pub min_create: u64,
    pub max_create: u64,
}

/// `etcdserverpb.RangeRequest`.
#[derive(Debug, PartialEq, Eq, Drop)]
pub struct RangeAsk {
    pub range: KeyRange,
    /// The revision to read at, or 0 for the newest.
    pub revision: u64,
    /// The most records wanted, or 0 for all.
    pub limit: u64,
    /// Whether the member may answer from what it has applied.
    pub serializable: bool,
    /// Whether the values are left empty.
    pub keys_only: bool,
    /// Whether only the number of keys is wanted.
    pub count_only: bool,
    pub sort: Sort,
}

/// `etcdserverpb.PutRequest`.
#[derive(Debug, PartialEq, Eq, Drop)]
pub struct PutAsk {
    pub key: Bytes,
    pub value: Bytes,
    /// The lease to attach the key to, or 0.
    pub lease: u64,
    /// Whether the record before it is wanted.
    pub prev_kv: bool,
    /// Whether the key keeps its present lease.
    pub ignore_lease: bool,
}

/// `etcdserverpb.DeleteRangeRequest`.
#[derive(Debug, PartialEq, Eq, Drop)]
pub struct DeleteAsk {
    pub range: KeyRange,
    /// Whether the deleted records are wanted.
    pub prev_kv: bool,
}

/// What a compare looks at in a record.
#[derive(Clone, Copy, Debug, PartialEq, Eq)]
pub enum Target {
    Version,
    /// The create revision.
    Create,
    /// The mod revision.
    Modified,
    Value,
    Lease,
}

/// How a compare holds: the record's part stands in this relation to the operand.
#[derive(Clone, Copy, Debug, PartialEq, Eq)]
pub enum Relation {
    Equal,
    Greater,
    Less,
    NotEqual,
}

/// `etcdserverpb.Compare`. The operand is `value` for the target `Value`, and else `number`.
#[derive(Debug, PartialEq, Eq, Drop)]
pub struct Compare {
    /// The keys that it speaks of: each record there has to pass.
    pub range: KeyRange,
    pub target: Target,
    pub relation: Relation,
    pub number: u64,
    pub value: Bytes,
}

/// `etcdserverpb.TxnRequest`: where all compares hold, `success` runs, else `failure`.
#[cycle(operation)]
#[derive(Debug, PartialEq, Eq, Drop)]
pub struct TxnAsk {
    pub compare: List<Compare>,
    pub success: List<Op>,
    pub failure: List<Op>,
}

/// `etcdserverpb.RequestOp`: an operation of a transaction.
#[cycle(operation)]
#[derive(Debug, PartialEq, Eq, Drop)]
pub enum Op {
    Range(RangeAsk),
    Put(PutAsk),
    Delete(DeleteAsk),
    Txn(TxnAsk),
}

impl RangeAsk {
    /// A copy, or `NoMemory` where memory was wanting.
    pub fn copy(&self, alloc: Global) -> Result<RangeAsk, NoMemory>
        ensures { IfOk result (λ ask. ask ≡ self.now) }
    {
        Ok(RangeAsk {
            range: self.range.copy(alloc)?,
            revision: self.revision,
            limit: self.limit,
            serializable: self.serializable,
            keys_only: self.keys_only,
            count_only: self.count_only,
            sort: self.sort,
        })
    }
}

impl PutAsk {
    /// A copy, or `NoMemory` where memory was wanting.
    pub fn copy(&self, alloc: Global) -> Result<PutAsk, NoMemory>
        ensures { IfOk result (λ ask. ask ≡ self.now) }
    {
        Ok(PutAsk {
            key: self.key.copy(alloc)?,
            value: self.value.copy(alloc)?,
            lease: self.lease,
            prev_kv: self.prev_kv,
            ignore_lease: self.ignore_lease,
        })
    }
}

impl DeleteAsk {
    /// A copy, or `NoMemory` where memory was wanting.
    pub fn copy(&self, alloc: Global) -> Result<DeleteAsk, NoMemory>
        ensures { IfOk result (λ ask. ask ≡ self.now) }
    {
        Ok(DeleteAsk {
            range: self.range.copy(alloc)?,
            prev_kv: self.prev_kv,
        })
    }
}

impl Compare {
    /// A copy, or `NoMemory` where memory was wanting.
    pub fn copy(&self, alloc: Global) -> Result<Compare, NoMemory>
        ensures { IfOk result (λ compare. compare ≡ self.now) }
    {
        Ok(Compare {
            range: self.range.copy(alloc)?,
            target: self.target,
            relation: self.relation,
            number: self.number,
            value: self.value.copy(alloc)?,
        })
    }
}

impl TxnAsk {
    /// A copy, or `NoMemory` where memory was wanting.
    #[cycle(operation_copy)]
    pub fn copy(&self, alloc: Global) -> Result<TxnAsk, NoMemory>
        ensures { IfOk result (λ ask. ask ≡ self.now) }
    {
        Ok(TxnAsk {
            compare: copy_compares(alloc, &self.compare)?,
            success: copy_operations(alloc, &self.success)?,
            failure: copy_operations(alloc, &self.failure)?,
        })
    }
}

impl Op {
    /// A copy, or `NoMemory` where memory was wanting.
    #[cycle(operation_copy)]
    pub fn copy(&self, alloc: Global) -> Result<Op, NoMemory>
        ensures { IfOk result (λ operation. operation ≡ self.now) }
    {
        match self {
            Op::Range(ask) => Ok(Op::Range(ask.copy(alloc)?)),
            Op::Put(ask) => Ok(Op::Put(ask.copy(alloc)?)),
            Op::Delete(ask) => Ok(Op::Delete(ask.copy(alloc)?)),
            Op::Txn(ask) => Ok(Op::Txn(ask.copy(alloc)?)),
        }
    }
}

fn copy_compares(alloc: Global, compares: &List<Compare>) -> Result<List<Compare>, NoMemory>
    ensures { IfOk result (λ copies. copies ≡ compares.now) }
{
    let mut copies = List::new(alloc);
    for compare in compares.as_slice() {
        copies.push(compare.copy(alloc)?)?;
    }
    Ok(copies)
}

#[cycle(operation_copy)]
fn copy_operations(alloc: Global, operations: &List<Op>) -> Result<List<Op>, NoMemory>
    ensures { IfOk result (λ copies. copies ≡ operations.now) }
{
    let mut copies = List::new(alloc);
    for operation in operations.as_slice() {
        copies.push(operation.copy(alloc)?)?;
    }
    Ok(copies)
}
