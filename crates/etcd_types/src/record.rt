ghost use Rattle.std.specs.Prelude.{◌≡◌, IfOk};
ghost use Rattle.std.specs.Option.{option_copied};
ghost use Rattle.etcd_types.specs.Records.{after_put};

use crate::bytes::Bytes;
use crate::no_memory::NoMemory;
use std::alloc::Global;

/// A key with its value, as the store has it (`mvccpb.KeyValue`).
#[derive(Debug, PartialEq, Eq, Drop)]
pub struct Kv {
    pub key: Bytes,
    pub value: Bytes,
    /// The revision that began this life of the key.
    pub create: u64,
    /// The revision of its last put.
    pub modified: u64,
    /// The number of puts in this life, from 1.
    pub version: u64,
    /// The lease that it is attached to, or 0.
    pub lease: u64,
}

impl Kv {
    /// The record after a put at `revision`, where `old` is the record before it and `lease` the lease to attach it to, or
    /// 0. `NoMemory` where memory was wanting.
    pub fn after_put(
        alloc: Global,
        old: Option<&Kv>,
        key: &Bytes,
        value: &Bytes,
        lease: u64,
        revision: u64,
    ) -> Result<Kv, NoMemory>
        ensures { IfOk result (λ kv. kv ≡ after_put (option_copied old.entry) key.now value.now lease revision) }
    {
        let (create, version) = match old {
            None => (revision, 1),
            Some(kv) => (kv.create, kv.version.saturating_add(1)),
        };
        Ok(Kv {
            key: key.copy(alloc)?,
            value: value.copy(alloc)?,
            create,
            modified: revision,
            version,
            lease,
        })
    }

    /// A copy, or `NoMemory` where memory was wanting.
    pub fn copy(&self, alloc: Global) -> Result<Kv, NoMemory>
        ensures { IfOk result (λ kv. kv ≡ self.now) }
    {
        Ok(Kv {
            key: self.key.copy(alloc)?,
            value: self.value.copy(alloc)?,
            create: self.create,
            modified: self.modified,
            version: self.version,
            lease: self.lease,
        })
    }
}

/// The header of an answer (`etcdserverpb.ResponseHeader`).
#[derive(Clone, Copy, Debug, PartialEq, Eq)]
pub struct Header {
    /// The cluster's number.
    pub cluster: u64,
    /// The number of the member that answered.
    pub member: u64,
    /// The store's revision when it answered.
    pub revision: u64,
    /// The raft term.
    pub term: u64,
}
