ghost use Rattle.std.specs.Prelude.{◌≡◌, ◌++◌, ℕ, List as Values, true, [], length, ◌==◌, if◌then◌else◌, IfOk, OnOk, OnErr};
ghost use Rattle.std.specs.List.{flat_map, filter, list_all};
ghost use Rattle.std.specs.Option.{option_copied, option_to_list};
ghost use Rattle.std.specs.Ordering.{nat_cmp};
ghost use Rattle.std.specs.Map.{lookup};
ghost use Rattle.std.specs.BTreeMap.{is_at};
ghost use Rattle.etcd_types.specs.Keys.{same};
ghost use Rattle.store_model.specs.Leases.{is_attached};
ghost use Rattle.store_index.specs.Leases.{has_key, AreOrderedKeys, linked_keys, is_linked, Stay, Unlinks, is_put_linked, attached_at};

use crate::reading::left_now;
use crate::versions::Versions;
use etcd_types::{Bytes, Kv, List, NoMemory};
use std::alloc::Global;
use std::collections::{BTreeMap, BTreeSet};
use std::marker::Model;
use store_model::KeyChange;

/// Some keys. Contracts see them as a list with rising keys.
#[derive(Debug, Drop)]
pub(crate) struct KeySet {
    keys: BTreeSet<Bytes>,
}

impl Model for KeySet {
    ghost use Rattle.std.specs.Prelude.{List, ℕ};

    ghost Value = { List (List ℕ) };

    ghost view = { λ s. s.keys.keys };
}

impl KeySet {
    fn new(alloc: Global) -> KeySet
        ensures { result ≡ [] }
    {
        KeySet {
            keys: BTreeSet::new(alloc),
        }
    }

    fn is_empty(&self) -> bool
        ensures { result ≡ (length self.now == 0) }
    {
        self.keys.is_empty()
    }

    fn add(&mut self, key: Bytes) -> Result<(), NoMemory>
        ensures ok { OnOk result ((k : Values ℕ) → has_key k self.new ≡ (if same key k then true else has_key k self.old)) }
        ensures err { OnErr result (self.new ≡ self.old) }
    {
        self.keys.insert(key)?;
        Ok(())
    }

    fn remove(&mut self, key: &Bytes)
        ensures { (k : Values ℕ) → (k ≡ key.now → ⊥) → has_key k self.new ≡ has_key k self.old }
    {
        self.keys.remove(key);
    }

    /// The records of these keys that are attached to the lease, in the order of the keys.
    pub(crate) fn attached(
        &self,
        alloc: Global,
        versions: &Versions,
        lease: u64,
    ) -> Result<List<Kv>, NoMemory>
        ensures shown { IfOk result (λ kvs. kvs ≡ flat_map (attached_at lease versions.now) self.now) }
        ensures ordered { AreOrderedKeys self.now }
    {
        let mut kvs = List::new(alloc);
        for key in &self.keys {
            add_attached(alloc, &mut kvs, left_now(versions.of(key)), lease)?;
        }
        Ok(kvs)
    }
}

/// Adds the record, where there is one and it is attached to the lease.
fn add_attached(
    alloc: Global,
    kvs: &mut List<Kv>,
    left: Option<&Kv>,
    lease: u64,
) -> Result<(), NoMemory>
    ensures { OnOk result (kvs.new ≡ kvs.old ++ filter (is_attached lease) (option_to_list (option_copied left.entry))) }
{
    let Some(record) = left else {
        return Ok(());
    };
    if record.lease != lease {
        return Ok(());
    }
    kvs.push(record.copy(alloc)?)?;
    Ok(())
}

/// The keys that each lease may have. Contracts see it as the list of leases, each with its keys.
#[derive(Debug, Drop)]
pub(crate) struct LeaseKeys {
    alloc: Global,
    map: BTreeMap<u64, KeySet>,
}

impl Model for LeaseKeys {
    ghost use Rattle.std.specs.Prelude.{List, ℕ};

    ghost Value = { List (ℕ × List (List ℕ)) };

    ghost view = { λ l. l.map.entries };
}

impl LeaseKeys {
    /// No lease. It takes no memory.
    pub(crate) fn new(alloc: Global) -> LeaseKeys
        ensures { result ≡ [] }
    {
        LeaseKeys {
            alloc,
            map: BTreeMap::new(alloc),
        }
    }

    pub(crate) fn is_empty(&self) -> bool {
        self.map.is_empty()
    }

    /// The keys that a lease may have, where it has any.
    pub(crate) fn of(&self, lease: u64) -> Option<&KeySet>
        ensures { option_copied result ≡ lookup (is_at (nat_cmp lease)) self.now }
    {
        self.map.get(&lease)
    }

    /// Puts the keys that the changes attach to a lease to those of the lease.
    pub(crate) fn link_all(&mut self, changes: &[KeyChange]) -> Result<(), NoMemory>
        ensures linked { OnOk result (list_all (is_put_linked self.new) changes.now ≡ true) }
        ensures stay { Stay self.old self.new }
    {
        for change in changes {
            self.link_put(change)?;
        }
        Ok(())
    }

    fn link_put(&mut self, change: &KeyChange) -> Result<(), NoMemory>
        ensures linked { OnOk result (is_put_linked self.new change.now ≡ true) }
        ensures stay { Stay self.old self.new }
    {
        match change {
            KeyChange::Put { key, lease, .. } => {
                if *lease == 0 {
                    Ok(())
                } else {
                    Ok(self.link(*lease, key)?)
                }
            }
            KeyChange::Delete { .. } => Ok(()),
        }
    }

    fn link(&mut self, lease: u64, key: &Bytes) -> Result<(), NoMemory>
        ensures linked { OnOk result (is_linked self.new lease key.now ≡ true) }
        ensures stay { Stay self.old self.new }
    {
        let key = key.copy(self.alloc)?;
        if let Some(keys) = self.map.get_mut(&lease) {
            return Ok(keys.add(key)?);
        }
        let mut keys = KeySet::new(self.alloc);
        keys.add(key)?;
        self.map.insert(lease, keys)?;
        Ok(())
    }

    /// Takes the key away from those of the lease, and the lease where it was the only one. It takes no memory.
    pub(crate) fn unlink(&mut self, lease: u64, key: &Bytes)
        ensures { Unlinks lease key.now self.old self.new }
    {
        if self.take_key(lease, key) {
            self.map.remove(&lease);
        }
    }

    /// Takes the key away from those of the lease, and tells whether none is left.
    fn take_key(&mut self, lease: u64, key: &Bytes) -> bool
        ensures others { Unlinks lease key.now self.old self.new }
        ensures none { result ≡ true → linked_keys self.new lease ≡ [] }
    {
        match self.map.get_mut(&lease) {
            Some(keys) => {
                keys.remove(key);
                keys.is_empty()
            }
            None => false,
        }
    }
}
