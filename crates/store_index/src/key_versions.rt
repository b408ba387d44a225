ghost use Rattle.std.specs.Prelude.{◌≡◌, ◌-◌, ◌≤◌, ◌==◌, None, [], ◌∷◌, ◌++◌, length, take, drop, IfOk, OnOk, OnErr};
ghost use Rattle.compaction_model.specs.Versions.{held_list, kept};
ghost use Rattle.store_index.specs.Held.{held_last};

use compaction_model::Version;
use etcd_types::NoMemory;
use std::alloc::Global;
use std::marker::Model;

/// The versions of one key, by rising revisions. Contracts see it as the list of its versions.
#[derive(Debug, Drop)]
pub(crate) struct KeyVersions {
    items: Vec<Version>,
}

impl Model for KeyVersions {
    ghost use Rattle.std.specs.Prelude.{List};
    ghost use Rattle.compaction_model.specs.declared.version.Version.{Version};

    ghost Value = { List Version };

    ghost view = { λ v. v.items.items };
}

impl KeyVersions {
    /// One version, with room for it alone, since most keys have one.
    pub(crate) fn one(alloc: Global, version: Version) -> Result<KeyVersions, NoMemory>
        ensures { IfOk result (λ versions. versions ≡ version ∷ []) }
    {
        let mut items = Vec::with_capacity(alloc, 1)?;
        items.push(version)?;
        Ok(KeyVersions { items })
    }

    pub(crate) fn as_slice(&self) -> &[Version]
        ensures { result.now ≡ self.now }
    {
        self.items.as_slice()
    }

    pub(crate) fn is_empty(&self) -> bool
        ensures { result ≡ (length self.now == 0) }
    {
        self.items.is_empty()
    }

    /// Adds the newest version. The room grows by a quarter and two, since the versions are most of what a store holds
    /// and room of fewer sizes is used again sooner.
    pub(crate) fn push(&mut self, version: Version) -> Result<(), NoMemory>
        ensures ok { OnOk result (self.new ≡ self.old ++ version ∷ []) }
        ensures err { OnErr result (self.new ≡ self.old) }
    {
        let count = self.items.len();
        if count == self.items.capacity() {
            self.items.reserve_exact(count / 4 + 2)?;
        }
        self.items.push(version)?;
        Ok(())
    }

    /// Takes the newest version away, where there is one.
    pub(crate) fn pop(&mut self)
        ensures { self.new ≡ take (length self.old - 1) self.old }
    {
        self.items.pop();
    }

    /// Drops what a compaction at this revision doesn't keep, and gives its memory back.
    pub(crate) fn compact(&mut self, revision: u64)
        ensures { self.new ≡ kept revision self.old }
    {
        let first = first_kept(self.items.as_slice(), revision);
        let left = self.items.len() - first;
        self.items.as_mut_slice().rotate_left(first);
        self.items.truncate(left);
        self.items.shrink_to_fit();
    }
}

/// Where the versions begin that a compaction at this revision keeps.
fn first_kept(versions: &[Version], revision: u64) -> usize
    ensures within { result ≤ length versions.now }
    ensures kept { kept revision versions.now ≡ drop result versions.now }
{
    for (index, version) in versions.iter().enumerate() {
        if version.revision == revision {
            return index;
        }
        if version.revision > revision {
            return held_before(versions, index);
        }
    }
    held_before(versions, versions.len())
}

/// The place of the put just before this place, where there is one, and else this place.
fn held_before(versions: &[Version], place: usize) -> usize
    requires { place ≤ length versions.now }
    ensures within { result ≤ place }
    ensures held { held_list (held_last (take place versions.now) None) ++ drop place versions.now ≡ drop result versions.now }
{
    if place > 0 && versions[place - 1].left.is_some() {
        place - 1
    } else {
        place
    }
}
