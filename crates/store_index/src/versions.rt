ghost use Rattle.std.specs.Prelude.{◌≡◌, ℕ, List as Values, [], true, length, min, IfOk, OnOk, OnErr};
ghost use Rattle.std.specs.List.{flat_map};
ghost use Rattle.std.specs.Option.{option_copied};
ghost use Rattle.store_model.specs.History.{changed_key};
ghost use Rattle.compaction_model.specs.Versions.{kept};
ghost use Rattle.compaction_model.specs.Places.{changed_keys};
ghost use Rattle.store_index.specs.Maps.{versions_of, added, taken, HaveVersions, AreOrdered, left_by, shown_by};
ghost use Rattle.store_index.specs.Adding.{version_from, with_change, added_all, taken_all};
ghost use Rattle.store_index.specs.Seen.{with_record, with_records};

use crate::changes::{Changes, after_put, changed_key, copy_change};
use crate::key_versions::KeyVersions;
use crate::listing::{add_left, count_versions, records_in};
use crate::reading::left_now;
use compaction_model::Version;
use etcd_types::{Bytes, KeyRange, Kv, List, NoMemory};
use std::alloc::Global;
use std::collections::BTreeMap;
use std::marker::Model;
use store_model::KeyChange;

/// The versions of all keys. Contracts see it as the list of keys, each with its versions by rising revisions.
#[derive(Debug, Drop)]
pub struct Versions {
    alloc: Global,
    map: BTreeMap<Bytes, KeyVersions>,
}

impl Model for Versions {
    ghost use Rattle.std.specs.Prelude.{List, ℕ};
    ghost use Rattle.compaction_model.specs.declared.version.Version.{Version};

    ghost Value = { List (List ℕ × List Version) };

    ghost view = { λ v. v.map.entries };
}

impl Versions {
    /// No version of any key. It takes no memory.
    pub fn new(alloc: Global) -> Versions
        ensures { result ≡ [] }
    {
        Versions {
            alloc,
            map: BTreeMap::new(alloc),
        }
    }

    /// Of each of these records one version, which left it. Where a key has several, they come in their order.
    pub fn of_records(alloc: Global, records: &[Kv]) -> Result<Versions, NoMemory>
        ensures { IfOk result (λ versions. versions ≡ with_records records.now []) }
    {
        let mut versions = Versions::new(alloc);
        for record in records {
            versions.add_record(record)?;
        }
        Ok(versions)
    }

    fn add_record(&mut self, record: &Kv) -> Result<(), NoMemory>
        ensures { OnOk result (self.new ≡ with_record «record».now self.old) }
    {
        let version = Version {
            revision: record.modified,
            left: Some(record.copy(self.alloc)?),
        };
        self.add(&record.key, version)
    }

    /// The versions of a key.
    pub fn of(&self, key: &Bytes) -> &[Version]
        ensures { result.now ≡ versions_of self.now key.now }
    {
        match self.map.get(key) {
            Some(versions) => versions.as_slice(),
            None => &[],
        }
    }

    /// The records of the range that the versions up to a revision left, or all versions where none is named, in the order of
    /// the keys.
    pub fn records(&self, range: &KeyRange, up_to: Option<u64>) -> Result<List<Kv>, NoMemory>
        ensures shown { IfOk result (λ kvs. kvs ≡ shown_by (left_by up_to) range.now self.now) }
        ensures ordered { AreOrdered self.now }
    {
        // One key is looked up once, where the bounds of a range are two look-ups.
        if range.is_one() && !self.is_empty() {
            let mut kvs = List::new(self.alloc);
            add_left(self.alloc, &mut kvs, self.of(&range.key), up_to)?;
            return Ok(kvs);
        }
        records_in(self.alloc, &self.map, range, up_to)
    }

    /// Whether there is no version.
    pub fn is_empty(&self) -> bool
        ensures empty { result ≡ true → self.now ≡ [] }
        ensures ordered { AreOrdered self.now }
    {
        self.map.len() == 0
    }

    /// How many versions there are, or the last number of 64 bits where there are more. It takes no memory.
    pub fn count(&self) -> u64
        ensures count { result ≡ min (length (flat_map (λ e. e.1) self.now)) 0xffff_ffff_ffff_ffff }
        ensures ordered { AreOrdered self.now }
    {
        count_versions(&self.map)
    }

    /// Puts a version behind those of its key. Where memory was wanting all is as before.
    pub fn add(&mut self, key: &Bytes, version: Version) -> Result<(), NoMemory>
        ensures ok { OnOk result (self.new ≡ added key.now version self.old) }
        ensures err { OnErr result (self.new ≡ self.old) }
    {
        if let Some(versions) = self.map.get_mut(key) {
            versions.push(version)?;
            return Ok(());
        }
        let versions = KeyVersions::one(self.alloc, version)?;
        let key = key.copy(self.alloc)?;
        self.map.insert(key, versions)?;
        Ok(())
    }

    /// Takes the newest version of a key away, and the key where it was the only one. It takes no memory.
    pub fn take_back(&mut self, key: &Bytes)
        ensures { self.new ≡ taken key.now self.old }
    {
        let empty = match self.map.get_mut(key) {
            Some(versions) => {
                versions.pop();
                versions.is_empty()
            }
            None => false,
        };
        if empty {
            self.map.remove(key);
        }
    }

    /// Adds the versions that the changes of a revision make, where `keys` are their keys. The changes' values go into the
    /// versions as they are. Where memory was wanting all is as before.
    pub fn add_changes(
        &mut self,
        revision: u64,
        changes: Changes,
        keys: &[Bytes],
    ) -> Result<(), NoMemory>
        requires there { HaveVersions self.old }
        requires keys { keys.now ≡ changed_keys changes }
        ensures ok { OnOk result (self.new ≡ added_all revision changes self.old) }
        ensures there { HaveVersions self.new }
        ensures err { OnErr result (self.new ≡ self.old) }
    {
        let mut count = 0;
        for change in changes.into_vec() {
            match self.add_change(revision, change, &keys[count]) {
                Ok(()) => count += 1,
                Err(error) => {
                    self.take_all_back(&keys[..count]);
                    return Err(error);
                }
            }
        }
        Ok(())
    }

    /// Adds the versions that copies of these changes make.
    pub fn add_copies(&mut self, revision: u64, changes: &[KeyChange]) -> Result<(), NoMemory>
        ensures { OnOk result (self.new ≡ added_all revision changes.now self.old) }
    {
        for change in changes {
            let copy = copy_change(self.alloc, change)?;
            self.add_change(revision, copy, changed_key(change))?;
        }
        Ok(())
    }

    /// Adds the version that the change makes, where `key` is its key. Where memory was wanting all is as before.
    fn add_change(&mut self, revision: u64, change: KeyChange, key: &Bytes) -> Result<(), NoMemory>
        requires { key.now ≡ changed_key change }
        ensures ok { OnOk result (self.new ≡ with_change revision change self.old) }
        ensures err { OnErr result (self.new ≡ self.old) }
    {
        if let Some(versions) = self.map.get_mut(key) {
            let version = version_from(revision, change, left_now(versions.as_slice()));
            versions.push(version)?;
            return Ok(());
        }
        let versions = KeyVersions::one(self.alloc, version_from(revision, change, None))?;
        let key = key.copy(self.alloc)?;
        self.map.insert(key, versions)?;
        Ok(())
    }

    /// Takes back the newest version of each of these keys, that of the last one first. It takes no memory.
    fn take_all_back(&mut self, keys: &[Bytes])
        ensures { self.new ≡ taken_all keys.now self.old }
    {
        let mut count = keys.len();
        while count > 0 {
            count -= 1;
            self.take_back(&keys[count]);
        }
    }

    /// Drops what a compaction at this revision doesn't keep, and gives its memory back.
    pub fn compact(&mut self, revision: u64)
        ensures versions { (k : Values ℕ) → versions_of self.new k ≡ kept revision (versions_of self.old k) }
        ensures there { HaveVersions self.new }
    {
        self.map.retain(|_, versions| {
            versions.compact(revision);
            !versions.is_empty()
        });
    }
}

/// The version that the change makes, where `old` is its key's record before it. It takes no memory.
fn version_from(revision: u64, change: KeyChange, old: Option<&Kv>) -> Version
    ensures { result ≡ version_from revision change (option_copied old.entry) }
{
    match change {
        KeyChange::Put { key, value, lease } => Version {
            revision,
            left: Some(after_put(old, key, value, lease, revision)),
        },
        KeyChange::Delete { .. } => Version {
            revision,
            left: None,
        },
    }
}
