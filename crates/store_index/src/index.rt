ghost use Rattle.std.specs.Prelude.{◌≡◌, ◌≤◌, ◌<◌, ◌^◌, ◌-◌, [], get_or, min, IfOk, OnOk, OnErr};
ghost use Rattle.std.specs.Option.{option_copied};
ghost use Rattle.store_model.specs.History.{History, newest, with_revision};
ghost use Rattle.store_model.specs.Records.{record_now};
ghost use Rattle.store_model.specs.Ranges.{records_now, records_in};
ghost use Rattle.compaction_model.specs.Versions.{kept_versions};
ghost use Rattle.compaction_model.specs.Places.{changed_keys};
ghost use Rattle.store_model.specs.Leases.{attached};
ghost use Rattle.store_index.specs.Maps.{HaveVersions};
ghost use Rattle.store_index.specs.Count.{count_kept};
ghost use Rattle.store_index.specs.Kept.{KeepsSome};

use crate::changes::Changes;
use crate::leased::LeasedVersions;
use crate::places::{Keys, Places};
use crate::reading::left_now;
use crate::versions::Versions;
use compaction_model::Version;
use etcd_types::{Bytes, KeyRange, Kv, List, NoMemory};
use std::alloc::Global;
use store_model::KeyChange;

/// What a store keeps of its history: the versions of each key that its compaction keeps, and which keys each revision from
/// there on changed.
#[derive(Debug, Drop)]
pub struct Index {
    pub(crate) alloc: Global,
    pub(crate) versions: LeasedVersions,
    pub(crate) places: Places,
    /// The revision of the last compaction, 0 where there was none.
    pub compacted: u64,
    /// The newest revision, from 1.
    pub newest: u64,
    ghost have_versions: { HaveVersions versions },
    ghost of_a_history: { KeepsSome newest compacted versions places },
    ghost past: { compacted ≤ newest },
    ghost room: { newest ≤ 2 ^ 63 },
}

impl Index {
    ghost use Rattle.store_index.specs.Index.{HoldsKept};

    /// The index of a history without a revision. It takes no memory.
    pub fn new(alloc: Global) -> Index
        ensures holds { HoldsKept result [] }
        ensures compacted { result.compacted ≡ 0 }
    {
        Index {
            alloc,
            versions: LeasedVersions::new(alloc),
            places: Places::new(alloc),
            compacted: 0,
            newest: 1,
        }
    }

    /// The record of the key, where it has one.
    pub fn record(&self, key: &Bytes) -> Option<&Kv>
        ensures { (h : History) → HoldsKept self.now h → option_copied result ≡ record_now h key.now }
    {
        left_now(self.versions.of(key))
    }

    /// The records of the range, in the order of the keys.
    pub fn records(&self, range: &KeyRange) -> Result<List<Kv>, NoMemory>
        ensures { IfOk result (λ kvs. (h : History) → HoldsKept self.now h → kvs ≡ records_now h range.now) }
    {
        Ok(self.versions.records(range, None)?)
    }

    /// The records of the range at a revision from the compaction on, in the order of the keys.
    pub fn records_at(&self, range: &KeyRange, revision: u64) -> Result<List<Kv>, NoMemory>
        requires { self.now.compacted ≤ revision }
        ensures { IfOk result (λ kvs. (h : History) → HoldsKept self.now h → kvs ≡ records_in h revision range.now) }
    {
        Ok(self.versions.records(range, Some(revision))?)
    }

    /// The records of the range in the order of the keys, as a request sees them that made these changes so far.
    pub fn records_with(&self, range: &KeyRange, made: &[KeyChange]) -> Result<List<Kv>, NoMemory>
        ensures { IfOk result (λ kvs. (h : History) → HoldsKept self.now h → kvs ≡ records_now (with_revision h made.now) range.now) }
    {
        let records = self.versions.records(range, None)?;
        if made.is_empty() {
            return Ok(records);
        }
        let mut seen = Versions::of_records(self.alloc, records.as_slice())?;
        seen.add_copies(self.newest + 1, made)?;
        Ok(seen.records(range, None)?)
    }

    /// The records whose key is attached to the lease, in the order of the keys. Leases have numbers from 1.
    pub fn attached(&self, lease: u64) -> Result<List<Kv>, NoMemory>
        requires { 0 < lease }
        ensures { IfOk result (λ kvs. (h : History) → HoldsKept self.now h → kvs ≡ attached h lease) }
    {
        Ok(self.versions.attached(lease)?)
    }

    /// How many versions are kept of all keys together, or the last number of 64 bits where there are more. It takes no memory.
    pub fn kept(&self) -> u64
        ensures { (h : History) → HoldsKept self.now h → result ≡ min (count_kept h self.now.compacted) 0xffff_ffff_ffff_ffff }
    {
        self.versions.count()
    }

    /// The versions of the key that are kept, by rising revisions.
    pub fn kept_versions(&self, key: &Bytes) -> &[Version]
        ensures { (h : History) → HoldsKept self.now h → result.now ≡ kept_versions h self.now.compacted key.now }
    {
        self.versions.of(key)
    }

    /// The keys that a revision changed, in the order of its changes. The first revision that changes keys is 2.
    pub fn changed_at(&self, revision: u64) -> Result<List<Bytes>, NoMemory>
        requires first { 2 ≤ revision }
        requires from { self.now.compacted ≤ revision }
        requires last { revision ≤ self.now.newest }
        ensures { IfOk result (λ keys. (h : History) → HoldsKept self.now h → keys ≡ changed_keys (get_or h (revision - 2) [])) }
    {
        Ok(self.places.at((revision - self.compacted.max(2)) as usize)?)
    }

    /// Adds the changes as one revision, where there are any. Where memory was wanting all is as before.
    pub fn add(&mut self, changes: Changes) -> Result<(), NoMemory>
        requires { self.old.newest < 2 ^ 63 }
        ensures ok { OnOk result ((h : History) → HoldsKept self.old h → HoldsKept self.new (with_revision h changes)) }
        ensures compacted { OnOk result (self.new.compacted ≡ self.old.compacted) }
        ensures err { OnErr result (self.new ≡ self.old) }
    {
        if changes.as_slice().is_empty() {
            return Ok(());
        }
        let keys = Keys::of_changes(self.alloc, changes.as_slice())?;
        self.places.push(keys.as_slice())?;
        match self
            .versions
            .add_changes(self.newest + 1, changes, keys.as_slice())
        {
            Ok(()) => {
                self.newest += 1;
                Ok(())
            }
            Err(error) => {
                self.places.take_back();
                Err(error)
            }
        }
    }

    /// Drops what a compaction at this revision doesn't keep, and gives its memory back.
    pub fn compact(&mut self, revision: u64)
        requires past { self.old.compacted ≤ revision }
        requires within { revision ≤ self.old.newest }
        ensures kept { (h : History) → HoldsKept self.old h → HoldsKept self.new h }
        ensures compacted { self.new.compacted ≡ revision }
    {
        self.versions.compact(revision);
        let first = self.compacted.max(2);
        self.places.drop_first((revision.max(2) - first) as usize);
        self.compacted = revision;
    }
}
