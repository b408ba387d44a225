ghost use Rattle.std.specs.Prelude.{◌≡◌, IfOk};
ghost use Rattle.store_model.specs.Records.{after_change, after_changes};

use etcd_types::{Bytes, Kv, NoMemory};
use std::alloc::Global;
use store_model::KeyChange;

/// The record of the key behind these changes of one revision, where `old` is the one before them.
pub fn after_changes(
    alloc: Global,
    changes: &[KeyChange],
    key: &Bytes,
    revision: u64,
    old: Option<Kv>,
) -> Result<Option<Kv>, NoMemory>
    ensures { IfOk result (λ found. found ≡ after_changes revision key.now changes.now old) }
{
    let mut record = old;
    for change in changes {
        record = after_change(alloc, change, key, revision, record)?;
    }
    Ok(record)
}

fn after_change(
    alloc: Global,
    change: &KeyChange,
    key: &Bytes,
    revision: u64,
    old: Option<Kv>,
) -> Result<Option<Kv>, NoMemory>
    ensures { IfOk result (λ found. found ≡ after_change revision key.now change.now old) }
{
    match change {
        KeyChange::Put {
            key: changed,
            value,
            lease,
        } => {
            if changed.cmp(key).is_eq() {
                let record = Kv::after_put(alloc, old.as_ref(), key, value, *lease, revision)?;
                Ok(Some(record))
            } else {
                Ok(old)
            }
        }
        KeyChange::Delete { key: changed } => {
            if changed.cmp(key).is_eq() {
                Ok(None)
            } else {
                Ok(old)
            }
        }
    }
}
