ghost use Rattle.std.specs.Prelude.{◌≡◌, IfOk};
ghost use Rattle.std.specs.Option.{option_copied};

use crate::bytes::Bytes;
use crate::list::List;
use crate::no_memory::NoMemory;
use crate::record::{Header, Kv};
use std::alloc::Global;

/// What an answer says, without its header.
#[derive(Debug, PartialEq, Eq, Drop)]
pub enum Body {
    /// `count` is the number of keys in the range; `more` says that the limit left some out.
    Range {
        count: u64,
        more: bool,
        kvs: List<Kv>,
    },
    /// `prev` is the record before the put, where it was asked for and is there.
    Put {
        prev: Option<Kv>,
    },
    /// `deleted` is the number of keys that were deleted, and `prevs` has their records where they were asked for.
    Delete {
        deleted: u64,
        prevs: List<Kv>,
    },
    /// The bodies of the branch that ran, in order.
    Txn {
        succeeded: bool,
        bodies: List<Body>,
    },
    /// The compaction is done.
    Compact,
    /// `ttl` in seconds.
    Grant {
        lease: u64,
        ttl: u64,
    },
    /// The lease is revoked, and its keys are deleted.
    Revoke,
    /// A `ttl` of 0 says that there is no such lease.
    KeepAlive {
        lease: u64,
        ttl: u64,
    },
    /// A `ttl` of -1 says that there is no such lease. `granted` is the time to live that it was granted, in seconds.
    TimeToLive {
        lease: u64,
        ttl: i64,
        granted: u64,
        keys: List<Bytes>,
    },
    /// The numbers of all leases.
    Leases {
        leases: List<u64>,
    },
}

/// An answer of the store to a request that it took.
#[derive(Debug, PartialEq, Eq, Drop)]
pub struct Reply {
    /// Who answered, and at which revision.
    pub header: Header,
    pub body: Body,
}

/// A refusal: a gRPC status code, from 1, and its text.
#[derive(Debug, PartialEq, Eq, Drop)]
pub struct Refusal {
    pub code: u32,
    pub text: Bytes,
}

/// What comes of a request: a reply of the store, or its refusal.
#[derive(Debug, PartialEq, Eq, Drop)]
pub enum Answer {
    Done(Reply),
    Refused(Refusal),
}

impl Body {
    /// A copy, or `NoMemory` where memory was wanting.
    #[cycle(body_copy)]
    pub fn copy(&self, alloc: Global) -> Result<Body, NoMemory>
        ensures { IfOk result (λ body. body ≡ self.now) }
    {
        match self {
            Body::Range { count, more, kvs } => Ok(Body::Range {
                count: *count,
                more: *more,
                kvs: copy_records(alloc, kvs)?,
            }),
            Body::Put { prev } => Ok(Body::Put {
                prev: copy_record(alloc, prev)?,
            }),
            Body::Delete { deleted, prevs } => Ok(Body::Delete {
                deleted: *deleted,
                prevs: copy_records(alloc, prevs)?,
            }),
            Body::Txn { succeeded, bodies } => Ok(Body::Txn {
                succeeded: *succeeded,
                bodies: copy_bodies(alloc, bodies)?,
            }),
            Body::Compact => Ok(Body::Compact),
            Body::Grant { lease, ttl } => Ok(Body::Grant {
                lease: *lease,
                ttl: *ttl,
            }),
            Body::Revoke => Ok(Body::Revoke),
            Body::KeepAlive { lease, ttl } => Ok(Body::KeepAlive {
                lease: *lease,
                ttl: *ttl,
            }),
            Body::TimeToLive {
                lease,
                ttl,
                granted,
                keys,
            } => Ok(Body::TimeToLive {
                lease: *lease,
                ttl: *ttl,
                granted: *granted,
                keys: copy_keys(alloc, keys)?,
            }),
            Body::Leases { leases } => Ok(Body::Leases {
                leases: copy_leases(alloc, leases)?,
            }),
        }
    }
}

impl Reply {
    /// A copy, or `NoMemory` where memory was wanting.
    pub fn copy(&self, alloc: Global) -> Result<Reply, NoMemory>
        ensures { IfOk result (λ reply. reply ≡ self.now) }
    {
        Ok(Reply {
            header: self.header,
            body: self.body.copy(alloc)?,
        })
    }
}

impl Refusal {
    /// A copy, or `NoMemory` where memory was wanting.
    pub fn copy(&self, alloc: Global) -> Result<Refusal, NoMemory>
        ensures { IfOk result (λ refusal. refusal ≡ self.now) }
    {
        Ok(Refusal {
            code: self.code,
            text: self.text.copy(alloc)?,
        })
    }
}

impl Answer {
    /// A copy, or `NoMemory` where memory was wanting.
    pub fn copy(&self, alloc: Global) -> Result<Answer, NoMemory>
        ensures { IfOk result (λ answer. answer ≡ self.now) }
    {
        match self {
            Answer::Done(reply) => Ok(Answer::Done(reply.copy(alloc)?)),
            Answer::Refused(refusal) => Ok(Answer::Refused(refusal.copy(alloc)?)),
        }
    }
}

pub(crate) fn copy_record(alloc: Global, kv: &Option<Kv>) -> Result<Option<Kv>, NoMemory>
    ensures { IfOk result (λ copied. copied ≡ kv.now) }
{
    match kv {
        None => Ok(None),
        Some(kv) => Ok(Some(kv.copy(alloc)?)),
    }
}

fn copy_records(alloc: Global, records: &List<Kv>) -> Result<List<Kv>, NoMemory>
    ensures { IfOk result (λ copies. copies ≡ records.now) }
{
    let mut copies = List::new(alloc);
    for record in records.as_slice() {
        copies.push(record.copy(alloc)?)?;
    }
    Ok(copies)
}

#[cycle(body_copy)]
fn copy_bodies(alloc: Global, bodies: &List<Body>) -> Result<List<Body>, NoMemory>
    ensures { IfOk result (λ copies. copies ≡ bodies.now) }
{
    let mut copies = List::new(alloc);
    for body in bodies.as_slice() {
        copies.push(body.copy(alloc)?)?;
    }
    Ok(copies)
}

fn copy_keys(alloc: Global, keys: &List<Bytes>) -> Result<List<Bytes>, NoMemory>
    ensures { IfOk result (λ copies. copies ≡ keys.now) }
{
    let mut copies = List::new(alloc);
    for key in keys.as_slice() {
        copies.push(key.copy(alloc)?)?;
    }
    Ok(copies)
}

fn copy_leases(alloc: Global, leases: &List<u64>) -> Result<List<u64>, NoMemory>
    ensures { IfOk result (λ copies. copies ≡ leases.now) }
{
    let mut copies = List::new(alloc);
    for lease in leases.as_slice() {
        copies.push(*lease)?;
    }
    Ok(copies)
}
