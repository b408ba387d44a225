ghost use Rattle.std.specs.Prelude.{◌≡◌, IfOk};
ghost use Rattle.watch_model.specs.Joining.{watched_range as range_watched};
ghost use Rattle.world_model.specs.Received.{stored_change as change_stored, stored_record as record_stored};

use etcd_types::{Bytes, Change, KeyRange, Kv, NoMemory};
use namespace_keys::key_under;
use std::alloc::Global;

/// A record of a client's key, as the history has it.
pub(crate) fn stored_record(alloc: Global, namespace: &Bytes, kv: &Kv) -> Result<Kv, NoMemory>
    ensures { IfOk result (λ stored. stored ≡ record_stored namespace.now kv.now) }
{
    let mut stored = kv.copy(alloc)?;
    stored.key = key_under(alloc, namespace, &kv.key)?;
    Ok(stored)
}

/// A change of a client's key, as the history has it.
pub(crate) fn stored_change(
    alloc: Global,
    namespace: &Bytes,
    change: &Change,
) -> Result<Change, NoMemory>
    ensures { IfOk result (λ stored. stored ≡ change_stored namespace.now change.now) }
{
    match change {
        Change::Put(kv) => Ok(Change::Put(stored_record(alloc, namespace, kv)?)),
        Change::Delete { key, modified } => Ok(Change::Delete {
            key: key_under(alloc, namespace, key)?,
            modified: *modified,
        }),
    }
}

/// The range that a watch looks at: an empty key is read as one zero byte.
pub(crate) fn watched_range(alloc: Global, range: &KeyRange) -> Result<KeyRange, NoMemory>
    ensures { IfOk result (λ watched. watched ≡ range_watched range.now) }
{
    let mut watched = range.copy(alloc)?;
    if watched.key.is_empty() {
        watched.key = Bytes::from_slice(alloc, &[0])?;
    }
    Ok(watched)
}
