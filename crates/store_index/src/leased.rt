ghost use Rattle.std.specs.Prelude.{◌≡◌, ◌<◌, ℕ, List as Values, [], length, min, filter, IfOk, OnOk, OnErr};
ghost use Rattle.std.specs.List.{flat_map};
ghost use Rattle.std.specs.Option.{option_copied};
ghost use Rattle.store_model.specs.Leases.{is_attached, all_keys};
ghost use Rattle.compaction_model.specs.Places.{changed_keys};
ghost use Rattle.compaction_model.specs.Versions.{kept};
ghost use Rattle.store_index.specs.Maps.{versions_of, HaveVersions, AreOrdered, left_by, shown_by};
ghost use Rattle.store_index.specs.Adding.{added_all};
ghost use Rattle.store_index.specs.Leases.{AreCovered, lease_left};

use crate::changes::Changes;
use crate::lease_keys::LeaseKeys;
use crate::reading::left_now;
use crate::versions::Versions;
use compaction_model::Version;
use etcd_types::{Bytes, KeyRange, Kv, List, NoMemory};
use std::alloc::Global;
use std::marker::Model;

/// The versions of all keys, and beside them which keys each lease has, so that these are found by the lease. Contracts see
/// the versions alone: the list of keys, each with its versions by rising revisions.
#[derive(Debug, Drop)]
pub(crate) struct LeasedVersions {
    alloc: Global,
    versions: Versions,
    leases: LeaseKeys,
}

impl Model for LeasedVersions {
    ghost use Rattle.std.specs.Prelude.{List, ℕ};
    ghost use Rattle.compaction_model.specs.declared.version.Version.{Version};
    ghost use Rattle.store_index.specs.Leases.{AreCovered};

    ghost Value = { List (List ℕ × List Version) };

    ghost view = { λ v. v.versions };

    ghost invariant = { λ v. AreCovered v.versions v.leases };
}

impl LeasedVersions {
    /// No version of any key. It takes no memory.
    pub(crate) fn new(alloc: Global) -> LeasedVersions
        ensures { result ≡ [] }
    {
        LeasedVersions {
            alloc,
            versions: Versions::new(alloc),
            leases: LeaseKeys::new(alloc),
        }
    }

    /// The versions of a key.
    pub(crate) fn of(&self, key: &Bytes) -> &[Version]
        ensures { result.now ≡ versions_of self.now key.now }
    {
        self.versions.of(key)
    }

    /// How many versions there are, or the last number of 64 bits where there are more. It takes no memory.
    pub(crate) fn count(&self) -> u64
        ensures count { result ≡ min (length (flat_map (λ e. e.1) self.now)) 0xffff_ffff_ffff_ffff }
        ensures ordered { AreOrdered self.now }
    {
        self.versions.count()
    }

    /// The records of the range that the versions up to a revision left, or all versions where none is named, in the order of
    /// the keys.
    pub(crate) fn records(&self, range: &KeyRange, up_to: Option<u64>) -> Result<List<Kv>, NoMemory>
        ensures shown { IfOk result (λ kvs. kvs ≡ shown_by (left_by up_to) range.now self.now) }
        ensures ordered { AreOrdered self.now }
    {
        self.versions.records(range, up_to)
    }

    /// The records whose key is attached to the lease, in the order of the keys.
    pub(crate) fn attached(&self, lease: u64) -> Result<List<Kv>, NoMemory>
        requires { 0 < lease }
        ensures shown { IfOk result (λ kvs. kvs ≡ filter (is_attached lease) (shown_by (left_by None) all_keys self.now)) }
        ensures ordered { AreOrdered self.now }
    {
        if self.versions.is_empty() {
            return Ok(List::new(self.alloc));
        }
        match self.leases.of(lease) {
            Some(keys) => Ok(keys.attached(self.alloc, &self.versions, lease)?),
            None => Ok(List::new(self.alloc)),
        }
    }

    /// Adds the versions that the changes of a revision make, where `keys` are their keys. Where memory was wanting all is as
    /// before.
    pub(crate) fn add_changes(
        &mut self,
        revision: u64,
        changes: Changes,
        keys: &[Bytes],
    ) -> Result<(), NoMemory>
        requires there { HaveVersions self.old }
        requires keys { keys.now ≡ changed_keys changes }
        ensures ok { OnOk result (self.new ≡ added_all revision changes self.old) }
        ensures there { HaveVersions self.new }
        ensures err { OnErr result (self.new ≡ self.old) }
    {
        self.leases.link_all(changes.as_slice())?;
        self.versions.add_changes(revision, changes, keys)?;
        unlink_moved(&self.versions, &mut self.leases, keys, revision);
        Ok(())
    }

    /// Drops what a compaction at this revision doesn't keep, and gives its memory back.
    pub(crate) fn compact(&mut self, revision: u64)
        ensures versions { (k : Values ℕ) → versions_of self.new k ≡ kept revision (versions_of self.old k) }
        ensures there { HaveVersions self.new }
    {
        self.versions.compact(revision);
    }
}

/// Takes these keys, which a revision changed, away from the leases that they had before it and have no more.
fn unlink_moved(versions: &Versions, leases: &mut LeaseKeys, keys: &[Bytes], revision: u64)
    requires { AreCovered versions.now leases.old }
    ensures { AreCovered versions.now leases.new }
{
    if leases.is_empty() {
        return;
    }
    for key in keys {
        unlink_left(versions, leases, key, revision);
    }
}

/// Takes the key away from leases of its versions in this revision and of the last one before it, but for its present one.
fn unlink_left(versions: &Versions, leases: &mut LeaseKeys, key: &Bytes, revision: u64)
    requires { AreCovered versions.now leases.old }
    ensures { AreCovered versions.now leases.new }
{
    let held = versions.of(key);
    let present = lease_left(left_now(held));
    let mut count = held.len();
    while count > 0 {
        count -= 1;
        let version = &held[count];
        let lease = lease_left(version.left.as_ref());
        if lease != present {
            leases.unlink(lease, key);
        }
        if version.revision < revision {
            return;
        }
    }
}

/// The lease of a record, or 0 where there is none.
fn lease_left(left: Option<&Kv>) -> u64
    ensures { result ≡ lease_left (option_copied left.entry) }
{
    match left {
        Some(record) => record.lease,
        None => 0,
    }
}
