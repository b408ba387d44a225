ghost use Rattle.std.specs.Prelude.{◌≡◌, false};
ghost use Rattle.std.specs.Option.{option_copied};
ghost use Rattle.proxy_model.specs.LeaseTable.{is_held, is_writing};
ghost use Rattle.wait_model.specs.Covers.{is_single};
ghost use Rattle.wait_model.specs.Phases.{is_of, is_session, own_entry};
ghost use Rattle.wait_model.specs.Stages.{is_owner};
ghost use Rattle.wait_model.specs.declared.sending.Sending.TheVariants.{Due};
ghost use Rattle.wait_model.specs.declared.write.WriteStage.TheVariants.{Sends};
ghost use Rattle.revoke_calls.specs.Messages.{is_unknown};

use etcd_types::Request;
use lease_table::{Entry, Phase};
use wait_model::{Sending, WriteStage};

/// Whether its own call compares entries of this proxy.
pub fn is_owner(stage: &WriteStage) -> bool
    ensures { result ≡ is_owner stage.now }
{
    match stage {
        WriteStage::Sends { owner, .. } => *owner,
        WriteStage::Waiting | WriteStage::Finds { .. } => false,
    }
}

/// Whether it is a write of one key, and no transaction.
pub fn is_single(request: &Request) -> bool
    ensures { result ≡ is_single request.now }
{
    match request {
        Request::Put(_) => true,
        Request::Delete(ask) => ask.range.is_one(),
        _ => false,
    }
}

/// Whether there is an entry, and it is held.
pub fn is_held(entry: Option<&Entry>) -> bool
    ensures { result ≡ is_held (option_copied entry.entry) }
{
    match entry {
        Some(
            Entry {
                phase: Phase::Held,
                ..
            },
        ) => true,
        _ => false,
    }
}

/// Whether there is an entry, and an owner write of it is due or out.
pub fn is_writing(entry: Option<&Entry>) -> bool
    ensures { result ≡ is_writing (option_copied entry.entry) }
{
    match entry {
        Some(
            Entry {
                phase: Phase::Writing { .. },
                ..
            },
        ) => true,
        _ => false,
    }
}

/// Whether there is an entry, of this create revision.
pub fn is_of(entry: Option<&Entry>, create: u64) -> bool
    ensures { result ≡ is_of create (option_copied entry.entry) }
{
    match entry {
        Some(entry) => entry.create == create,
        None => false,
    }
}

/// Whether the lease is that of the live session.
pub fn is_session(session: Option<u64>, lease: u64) -> bool
    ensures { result ≡ is_session session lease }
{
    match session {
        Some(number) => number == lease,
        None => false,
    }
}

/// Whether the lease is that of the live session, and there is no entry.
pub fn is_unknown(session: Option<u64>, lease: u64, entry: Option<&Entry>) -> bool
    ensures { result ≡ is_unknown session lease (option_copied entry.entry) }
{
    is_session(session, lease) && !entry.is_some()
}

/// An entry for an ownership key of this proxy that it didn't know of: it is given up.
pub fn own_entry(create: u64) -> Entry
    ensures { result ≡ own_entry create }
{
    Entry {
        create,
        kv: None,
        phase: Phase::Leaving { sent: false },
    }
}

/// A guest write's call is due since this step.
pub fn guest_since(since: u64) -> WriteStage
    ensures { result ≡ Sends false (Due since) }
{
    WriteStage::Sends {
        owner: false,
        sending: Sending::Due { since },
    }
}
