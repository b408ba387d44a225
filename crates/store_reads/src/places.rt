ghost use Rattle.std.specs.Prelude.{◌≡◌, ◌≤◌, ◌<◌, ◌+◌, ◌^◌, ◌&&◌, ℕ, List as Values, [], length, if◌then◌else◌, IfOk, OnOk};
ghost use Rattle.etcd_types.specs.Keys.{same};
ghost use Rattle.store_reads.specs.Places.{count_at, is_repeated, IsFirstFrom};

use compaction_model::Version;
use etcd_types::{Bytes, NoMemory};
use std::alloc::Global;
use std::collections::BTreeMap;
use std::marker::Model;

/// Where the versions from this revision on begin, among ones with rising revisions.
pub(crate) fn first_from(versions: &[Version], revision: u64) -> usize
    ensures first { IsFirstFrom revision versions.now result }
    ensures fits { length versions.now < 2 ^ 64 }
{
    let mut low = 0;
    let mut high = versions.len();
    while low < high {
        let middle = low + (high - low) / 2;
        if versions[middle].revision < revision {
            low = middle + 1;
        } else {
            high = middle;
        }
    }
    low
}

/// Whether the version behind this place is of the revision, too.
fn is_repeated(versions: &[Version], place: usize, revision: u64) -> bool
    requires { place ≤ length versions.now }
    ensures { result ≡ is_repeated revision versions.now place }
{
    if versions.len() - place < 2 {
        return false;
    }
    versions[place + 1].revision == revision
}

/// How often keys came so far. Contracts see them as a list of keys, each with its count.
#[derive(Debug, Drop)]
pub(crate) struct Counts {
    alloc: Global,
    map: BTreeMap<Bytes, usize>,
}

impl Model for Counts {
    ghost use Rattle.std.specs.Prelude.{List, ℕ};

    ghost Value = { List (List ℕ × ℕ) };

    ghost view = { λ c. c.map.entries };
}

impl Counts {
    /// No key came. It takes no memory.
    pub(crate) fn new(alloc: Global) -> Counts
        ensures { result ≡ [] }
    {
        Counts {
            alloc,
            map: BTreeMap::new(alloc),
        }
    }

    fn of(&self, key: &Bytes) -> usize
        ensures { result ≡ count_at self.now key.now }
    {
        match self.map.get(key) {
            Some(count) => *count,
            None => 0,
        }
    }

    fn set(&mut self, key: &Bytes, count: usize) -> Result<(), NoMemory>
        ensures { OnOk result ((k : Values ℕ) → count_at self.new k ≡ (if same key.now k then count else count_at self.old k)) }
    {
        let key = key.copy(self.alloc)?;
        self.map.insert(key, count)?;
        Ok(())
    }

    /// How often the key came in this revision, and counts it once more. Only keys that the revision changed more than once are
    /// counted: the others' versions have none of the revision behind the first one, which is at this place.
    pub(crate) fn pass(
        &mut self,
        key: &Bytes,
        versions: &[Version],
        first: usize,
        revision: u64,
    ) -> Result<usize, NoMemory>
        requires few { count_at self.old key.now + 1 < 2 ^ 64 }
        requires within { first ≤ length versions.now }
        ensures count { IfOk result (λ n. n ≡ (if is_repeated revision versions.now first then count_at self.old key.now else 0)) }
        ensures passed { OnOk result ((k : Values ℕ) → count_at self.new k
            ≡ (if is_repeated revision versions.now first && same key.now k
            then count_at self.old key.now + 1 else count_at self.old k)) }
    {
        if !is_repeated(versions, first, revision) {
            return Ok(0);
        }
        let count = self.of(key);
        self.set(key, count + 1)?;
        Ok(count)
    }
}
