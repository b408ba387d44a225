ghost use Rattle.std.specs.Prelude.{◌≡◌, ◌-◌, ◌≤◌, ◌<◌, [], ◌∷◌, ◌++◌, length, take, drop, get_or, IfOk, OnOk, OnErr};
ghost use Rattle.compaction_model.specs.Places.{changed_keys};

use crate::changes::changed_key;
use crate::ends::Ends;
use crate::packed_keys::PackedKeys;
use etcd_types::{Bytes, List, NoMemory};
use std::alloc::Global;
use std::marker::Model;
use store_model::KeyChange;

/// The keys that one revision changed, in the order of its changes. Contracts see it as the list of them.
#[derive(Debug, Drop)]
pub(crate) struct Keys {
    items: Vec<Bytes>,
}

impl Model for Keys {
    ghost use Rattle.std.specs.Prelude.{List, ℕ};

    ghost Value = { List (List ℕ) };

    ghost view = { λ k. k.items.items };
}

impl Keys {
    /// The keys of the changes, with room for them alone, since most revisions change one.
    pub(crate) fn of_changes(alloc: Global, changes: &[KeyChange]) -> Result<Keys, NoMemory>
        ensures { IfOk result (λ keys. keys ≡ changed_keys changes.now) }
    {
        let mut items = Vec::with_capacity(alloc, changes.len())?;
        for change in changes {
            items.push(changed_key(change).copy(alloc)?)?;
        }
        Ok(Keys { items })
    }

    pub(crate) fn as_slice(&self) -> &[Bytes]
        ensures { result.now ≡ self.now }
    {
        self.items.as_slice()
    }
}

/// Which keys each revision changed, in the order of its changes. They are packed, since a store keeps them of each revision.
/// Contracts see it as the list of these lists of keys.
#[derive(Debug, Drop)]
pub(crate) struct Places {
    alloc: Global,
    keys: PackedKeys,
    ends: Ends,
}

impl Model for Places {
    ghost use Rattle.std.specs.Prelude.{List, ℕ, ◌+◌, length};
    ghost use Rattle.store_index.specs.Parts.{parts, RunTo};

    ghost Value = { List (List (List ℕ)) };

    ghost view = { λ p. parts p.ends.0 p.ends.1 p.keys };

    ghost invariant = { λ p. RunTo p.ends.0 p.ends.1 (p.ends.0 + length p.keys) };
}

impl Places {
    /// No revision. It takes no memory.
    pub fn new(alloc: Global) -> Places
        ensures { result ≡ [] }
    {
        Places {
            alloc,
            keys: PackedKeys::new(alloc),
            ends: Ends::new(alloc),
        }
    }

    /// How many revisions there are.
    pub fn len(&self) -> usize
        ensures { result ≡ length self.now }
    {
        self.ends.len()
    }

    /// Copies of the keys at this place.
    pub fn at(&self, place: usize) -> Result<List<Bytes>, NoMemory>
        requires { place < length self.now }
        ensures { IfOk result (λ keys. keys ≡ get_or self.now place []) }
    {
        let mut keys = List::new(self.alloc);
        for key in self.ends.length(place)..self.ends.through(place) {
            keys.push(self.keys.copy(self.alloc, key)?)?;
        }
        Ok(keys)
    }

    /// Adds the keys that a further revision changed. Where memory was wanting all is as before.
    pub fn push(&mut self, keys: &[Bytes]) -> Result<(), NoMemory>
        ensures ok { OnOk result (self.new ≡ self.old ++ keys.now ∷ []) }
        ensures err { OnErr result (self.new ≡ self.old) }
    {
        let before = self.keys.len();
        self.keys.push_all(keys)?;
        match self.ends.push(keys.len()) {
            Ok(()) => Ok(()),
            Err(error) => {
                self.keys.truncate(before);
                Err(error)
            }
        }
    }

    /// Takes the last revision away, where there is one.
    pub fn take_back(&mut self)
        ensures { self.new ≡ take (length self.old - 1) self.old }
    {
        let count = self.ends.len().saturating_sub(1);
        self.keys.truncate(self.ends.length(count));
        self.ends.truncate(count);
    }

    /// Drops so many of the first revisions, and gives their memory back.
    pub fn drop_first(&mut self, count: usize)
        ensures { self.new ≡ drop count self.old }
    {
        let count = count.min(self.ends.len());
        self.keys.drop_first(self.ends.length(count));
        self.ends.drop_first(count);
    }
}
