ghost use Rattle.std.specs.Prelude.{◌≡◌, ◌≤◌, ◌<◌, [], ◌∷◌, ◌++◌, length, take, drop, get_or, IfOk, OnOk, OnErr};

use crate::ends::{Ends, drop_front};
use etcd_types::{Bytes, NoMemory};
use std::alloc::Global;
use std::marker::Model;

/// Keys in one piece of memory, since a piece for each takes more than most keys do. Contracts see them as the list of them.
#[derive(Debug, Drop)]
pub(crate) struct PackedKeys {
    bytes: Vec<u8>,
    ends: Ends,
}

impl Model for PackedKeys {
    ghost use Rattle.std.specs.Prelude.{List, ℕ, ◌+◌, length};
    ghost use Rattle.store_index.specs.Parts.{parts, RunTo};

    ghost Value = { List (List ℕ) };

    ghost view = { λ k. parts k.ends.0 k.ends.1 k.bytes.items };

    ghost invariant = { λ k. RunTo k.ends.0 k.ends.1 (k.ends.0 + length k.bytes.items) };
}

impl PackedKeys {
    /// No key. It takes no memory.
    pub(crate) fn new(alloc: Global) -> PackedKeys
        ensures { result ≡ [] }
    {
        PackedKeys {
            bytes: Vec::new(alloc),
            ends: Ends::new(alloc),
        }
    }

    pub(crate) fn len(&self) -> usize
        ensures { result ≡ length self.now }
    {
        self.ends.len()
    }

    /// A copy of the key at this place.
    pub(crate) fn copy(&self, alloc: Global, place: usize) -> Result<Bytes, NoMemory>
        requires { place < length self.now }
        ensures { IfOk result (λ key. key ≡ get_or self.now place []) }
    {
        let from = self.ends.length(place);
        let to = self.ends.through(place);
        let bytes = self.bytes.as_slice();
        Ok(Bytes::from_slice(alloc, &bytes[from..to])?)
    }

    /// Adds these keys. Where memory was wanting all is as before.
    pub(crate) fn push_all(&mut self, keys: &[Bytes]) -> Result<(), NoMemory>
        ensures ok { OnOk result (self.new ≡ self.old ++ keys.now) }
        ensures err { OnErr result (self.new ≡ self.old) }
    {
        let before = self.len();
        for key in keys {
            if self.push(key).is_err() {
                self.truncate(before);
                return Err(NoMemory);
            }
        }
        Ok(())
    }

    fn push(&mut self, key: &Bytes) -> Result<(), NoMemory>
        ensures ok { OnOk result (self.new ≡ self.old ++ key.now ∷ []) }
        ensures err { OnErr result (self.new ≡ self.old) }
    {
        let before = self.bytes.len();
        let key = key.as_slice();
        self.bytes.extend_from_slice(key)?;
        match self.ends.push(key.len()) {
            Ok(()) => Ok(()),
            Err(error) => {
                self.bytes.truncate(before);
                Err(error)
            }
        }
    }

    /// Leaves so many of the first keys.
    pub(crate) fn truncate(&mut self, count: usize)
        requires { count ≤ length self.old }
        ensures { self.new ≡ take count self.old }
    {
        self.bytes.truncate(self.ends.length(count));
        self.ends.truncate(count);
    }

    /// Drops so many of the first keys, and gives their memory back.
    pub(crate) fn drop_first(&mut self, count: usize)
        requires { count ≤ length self.old }
        ensures { self.new ≡ drop count self.old }
    {
        drop_front(&mut self.bytes, self.ends.length(count));
        self.ends.drop_first(count);
    }
}
