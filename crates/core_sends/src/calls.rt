ghost use Rattle.std.specs.Prelude.{◌≡◌, IfOk};
ghost use Rattle.core_sends.specs.ToSend.{session_to_send, write_to_send, acquire_to_send, ask_to_send};

use crate::sendings::ToSend;
use call_kinds::kind_of;
use client_requests::passed_on;
use core_asks::writes_keys;
use core_model::Acquire;
use core_parts::{session_out, session_request};
use etcd_types::{Bytes, NoMemory};
use known_asks::Asked;
use lease_txn::acquire;
use namespace_keys::Namespace;
use session_keep::Session;
use std::alloc::Global;
use wait_model::Due;

pub(crate) fn session_to_send(ttl: u64, session: &Session) -> ToSend
    ensures { result ≡ session_to_send ttl session.now }
{
    ToSend::Session {
        out: session_out(session),
        request: session_request(ttl, session),
    }
}

pub(crate) fn write_to_send(
    alloc: Global,
    namespace: &Namespace,
    write: &Option<Due>,
) -> Result<Option<ToSend>, NoMemory>
    ensures { IfOk result (λ send. send ≡ write_to_send namespace.now write.now) }
{
    match write {
        None => Ok(None),
        Some(due) => Ok(Some(ToSend::Write {
            ticket: due.ticket,
            request: namespace.wrap_request(alloc, &due.request)?,
        })),
    }
}

pub(crate) fn acquire_to_send(
    alloc: Global,
    namespace: &Namespace,
    prefix: &Bytes,
    key: &Bytes,
    claim: &Acquire,
) -> Result<ToSend, NoMemory>
    ensures { IfOk result (λ send. send ≡ acquire_to_send namespace.now prefix.now key.now claim.now) }
{
    let request = acquire(alloc, prefix, key, claim.session)?;
    Ok(ToSend::Acquire {
        key: key.copy(alloc)?,
        ticket: claim.ticket,
        request: namespace.wrap_request(alloc, &request)?,
    })
}

pub(crate) fn ask_to_send(
    alloc: Global,
    namespace: &Namespace,
    ask: &Asked,
) -> Result<ToSend, NoMemory>
    ensures { IfOk result (λ send. send ≡ ask_to_send namespace.now ask.now) }
{
    Ok(ToSend::Ask {
        ticket: ask.ticket,
        kind: kind_of(&ask.request, writes_keys(&ask.request)),
        request: passed_on(alloc, namespace, ask.word, &ask.request)?,
    })
}
