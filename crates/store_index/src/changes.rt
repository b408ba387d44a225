ghost use Rattle.std.specs.Prelude.{◌≡◌, [], ◌∷◌, ◌++◌, IfOk, OnOk, OnErr};
ghost use Rattle.std.specs.Option.{option_copied};
ghost use Rattle.etcd_types.specs.Records.{after_put};
ghost use Rattle.store_model.specs.History.{changed_key};

use etcd_types::{Bytes, Kv, NoMemory};
use std::alloc::Global;
use std::marker::Model;
use store_model::KeyChange;

/// The changes that a request made so far, in their order. Contracts see it as the list of them.
#[derive(Debug, Drop)]
pub struct Changes {
    items: Vec<KeyChange>,
}

impl Model for Changes {
    ghost use Rattle.std.specs.Prelude.{List};
    ghost use Rattle.store_model.specs.declared.history.KeyChange.{KeyChange};

    ghost Value = { List KeyChange };

    ghost view = { λ c. c.items.items };
}

impl Changes {
    /// No change. It takes no memory.
    pub fn new(alloc: Global) -> Changes
        ensures { result ≡ [] }
    {
        Changes {
            items: Vec::new(alloc),
        }
    }

    /// All of them, in order.
    pub fn as_slice(&self) -> &[KeyChange]
        ensures { result.now ≡ self.now }
    {
        self.items.as_slice()
    }

    /// Adds a further change. Where memory was wanting they are as before, and the change is dropped.
    pub fn push(&mut self, change: KeyChange) -> Result<(), NoMemory>
        ensures ok { OnOk result (self.new ≡ self.old ++ change ∷ []) }
        ensures err { OnErr result (self.new ≡ self.old) }
    {
        self.items.push(change)?;
        Ok(())
    }

    pub(crate) fn into_vec(self) -> Vec<KeyChange>
        ensures { result.items ≡ self }
    {
        self.items
    }
}

/// The key that a change is about.
pub(crate) fn changed_key(change: &KeyChange) -> &Bytes
    ensures { result.now ≡ changed_key change.now }
{
    match change {
        KeyChange::Put { key, .. } => key,
        KeyChange::Delete { key } => key,
    }
}

pub(crate) fn copy_change(alloc: Global, change: &KeyChange) -> Result<KeyChange, NoMemory>
    ensures { IfOk result (λ copy. copy ≡ change.now) }
{
    match change {
        KeyChange::Put { key, value, lease } => Ok(KeyChange::Put {
            key: key.copy(alloc)?,
            value: value.copy(alloc)?,
            lease: *lease,
        }),
        KeyChange::Delete { key } => Ok(KeyChange::Delete {
            key: key.copy(alloc)?,
        }),
    }
}

/// The record after a put, where `old` is the record before it: the key and the value go into it as they are.
pub(crate) fn after_put(old: Option<&Kv>, key: Bytes, value: Bytes, lease: u64, revision: u64) -> Kv
    ensures { result ≡ after_put (option_copied old.entry) key value lease revision }
{
    let (create, version) = match old {
        None => (revision, 1),
        Some(kv) => (kv.create, kv.version.saturating_add(1)),
    };
    Kv {
        key,
        value,
        create,
        modified: revision,
        version,
        lease,
    }
}
