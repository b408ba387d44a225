ghost use Rattle.std.specs.Prelude.{◌≡◌, ◌++◌, IfOk, OnOk};
ghost use Rattle.revoke_calls.specs.Messages.{notices_of, notice_of};

use etcd_types::{Bytes, Change, Event, List, NoMemory};
use lease_txn::{is_revoke, owned_key};
use std::alloc::Global;

/// What an event of an ownership key says, by the key that is owned.
#[derive(Debug, PartialEq, Eq, Drop)]
pub enum Notice {
    /// The owner of this create revision and lease is asked to give the key up.
    Revoked { key: Bytes, create: u64, lease: u64 },
    /// The ownership key was deleted at this revision.
    Deleted { key: Bytes, revision: u64 },
}

/// What the events of a message say, in order; a put of anything but the revoking word says nothing.
pub fn notices_of(
    alloc: Global,
    prefix: &Bytes,
    events: &List<Event>,
) -> Result<Vec<Notice>, NoMemory>
    ensures { IfOk result (λ notices. notices.items ≡ notices_of prefix.now events.now) }
{
    let mut notices = Vec::new(alloc);
    for event in events.as_slice() {
        add_notice(alloc, prefix, &event.change, &mut notices)?;
    }
    Ok(notices)
}

fn add_notice(
    alloc: Global,
    prefix: &Bytes,
    change: &Change,
    notices: &mut Vec<Notice>,
) -> Result<(), NoMemory>
    ensures { OnOk result (notices.new.items ≡ notices.old.items ++ notice_of prefix.now change.now) }
{
    match change {
        Change::Put(kv) => {
            if is_revoke(&kv.value) {
                notices.push(Notice::Revoked {
                    key: owned_key(alloc, prefix, &kv.key)?,
                    create: kv.create,
                    lease: kv.lease,
                })?;
            }
            Ok(())
        }
        Change::Delete { key, modified } => {
            notices.push(Notice::Deleted {
                key: owned_key(alloc, prefix, key)?,
                revision: *modified,
            })?;
            Ok(())
        }
    }
}
