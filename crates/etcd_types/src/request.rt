ghost use Rattle.std.specs.Prelude.{◌≡◌, IfOk};

use crate::key_range::KeyRange;
use crate::no_memory::NoMemory;
use crate::operation::{DeleteAsk, PutAsk, RangeAsk, TxnAsk};
use std::alloc::Global;

/// `etcdserverpb.WatchCreateRequest`: a watch of the changes in a range.
#[derive(Debug, PartialEq, Eq, Drop)]
pub struct WatchAsk {
    pub range: KeyRange,
    /// The revision to begin at, or 0 to begin behind the newest.
    pub start: u64,
    /// Whether puts are left out.
    pub no_put: bool,
    /// Whether deletions are left out.
    pub no_delete: bool,
    /// Whether each event brings the record before it.
    pub prev_kv: bool,
    /// Whether messages without events may tell how far the watch has come.
    pub progress: bool,
}

impl WatchAsk {
    /// A copy, or `NoMemory` where memory was wanting.
    pub fn copy(&self, alloc: Global) -> Result<WatchAsk, NoMemory>
        ensures { IfOk result (λ ask. ask ≡ self.now) }
    {
        Ok(WatchAsk {
            range: self.range.copy(alloc)?,
            start: self.start,
            no_put: self.no_put,
            no_delete: self.no_delete,
            prev_kv: self.prev_kv,
            progress: self.progress,
        })
    }
}

/// A request to a cluster. Lease numbers, revisions and times to live (in seconds) are those of the API.
#[derive(Debug, PartialEq, Eq, Drop)]
pub enum Request {
    /// A read of a range; the next three are a put, a deletion and a transaction.
    Range(RangeAsk),
    Put(PutAsk),
    Delete(DeleteAsk),
    Txn(TxnAsk),
    /// `etcdserverpb.CompactionRequest`; `physical` waits until the old records are gone from the disk.
    Compact { revision: u64, physical: bool },
    /// `etcdserverpb.LeaseGrantRequest`: number 0 lets the store choose.
    Grant { ttl: u64, lease: u64 },
    /// `etcdserverpb.LeaseRevokeRequest`.
    Revoke { lease: u64 },
    /// `etcdserverpb.LeaseKeepAliveRequest`.
    KeepAlive { lease: u64 },
    /// `etcdserverpb.LeaseTimeToLiveRequest`; `keys` asks for the attached keys.
    TimeToLive { lease: u64, keys: bool },
    /// `etcdserverpb.LeaseLeasesRequest`: all leases.
    Leases,
    /// The opening of a watch.
    Watch(WatchAsk),
}

impl Request {
    /// A copy, or `NoMemory` where memory was wanting.
    pub fn copy(&self, alloc: Global) -> Result<Request, NoMemory>
        ensures { IfOk result (λ request. request ≡ self.now) }
    {
        match self {
            Request::Range(ask) => Ok(Request::Range(ask.copy(alloc)?)),
            Request::Put(ask) => Ok(Request::Put(ask.copy(alloc)?)),
            Request::Delete(ask) => Ok(Request::Delete(ask.copy(alloc)?)),
            Request::Txn(ask) => Ok(Request::Txn(ask.copy(alloc)?)),
            Request::Compact { revision, physical } => Ok(Request::Compact {
                revision: *revision,
                physical: *physical,
            }),
            Request::Grant { ttl, lease } => Ok(Request::Grant {
                ttl: *ttl,
                lease: *lease,
            }),
            Request::Revoke { lease } => Ok(Request::Revoke { lease: *lease }),
            Request::KeepAlive { lease } => Ok(Request::KeepAlive { lease: *lease }),
            Request::TimeToLive { lease, keys } => Ok(Request::TimeToLive {
                lease: *lease,
                keys: *keys,
            }),
            Request::Leases => Ok(Request::Leases),
            Request::Watch(ask) => Ok(Request::Watch(ask.copy(alloc)?)),
        }
    }
}
