ghost use Rattle.std.specs.Prelude.{◌≡◌, IfOk};
ghost use Rattle.due_order.specs.Seen.{job_seen};
ghost use Rattle.core_sends.specs.ToSend.{to_send};

use crate::calls::{acquire_to_send, ask_to_send, session_to_send, write_to_send};
use crate::streams::{opening_to_send, stream_to_send};
use core_model::{CallKind, OutJob};
use due_order::DueJob;
use etcd_types::{Bytes, NoMemory, Request};
use namespace_keys::Namespace;
use std::alloc::Global;
use wait_model::Due;

/// What is to be sent, with what the proxy is to note of it. Requests are under the namespace.
#[derive(Debug, Drop)]
pub enum ToSend {
    /// The session's call, and what it is for.
    Session {
        out: OutJob,
        request: Request,
    },
    /// A rescind, a call that asks an owner, or a write's own, for this ticket or 0.
    Write {
        ticket: u64,
        request: Request,
    },
    /// The acquire of this key, for the read of this ticket.
    Acquire {
        key: Bytes,
        ticket: u64,
        request: Request,
    },
    /// The request's own call.
    Ask {
        ticket: u64,
        kind: CallKind,
        request: Request,
    },
    /// A keepalive of this lease for all of its group, of which this is the least ticket.
    Group {
        lease: u64,
        ticket: u64,
    },
    /// The opening of the leasing stream.
    Open {
        stream: u64,
        request: Request,
    },
    /// The opening of a client stream.
    Begin {
        stream: u64,
        request: Request,
    },
    /// The closing of a client stream.
    Close {
        stream: u64,
    },
}

/// What is to be sent for the job by a proxy with this leasing prefix, which asks for this time to live of a session in seconds.
/// `write` is the writes' first due job, where the job is theirs. Nothing where nothing is due of it. `NoMemory` where memory was
/// wanting.
pub fn to_send(
    alloc: Global,
    namespace: &Namespace,
    prefix: &Bytes,
    ttl: u64,
    write: &Option<Due>,
    job: DueJob<'_>,
) -> Result<Option<ToSend>, NoMemory>
    ensures { IfOk result (λ send. send ≡ to_send namespace.now prefix.now ttl write.now (job_seen job.entry)) }
{
    match job {
        DueJob::Session(session) => Ok(Some(session_to_send(ttl, session))),
        DueJob::Writes => Ok(write_to_send(alloc, namespace, write)?),
        DueJob::Acquire { key, acquire } => {
            Ok(Some(acquire_to_send(alloc, namespace, prefix, key, acquire)?))
        }
        DueJob::Ask(ask) => Ok(Some(ask_to_send(alloc, namespace, ask)?)),
        DueJob::Group { lease, ticket } => Ok(Some(ToSend::Group { lease, ticket })),
        DueJob::Open(opening) => Ok(Some(opening_to_send(alloc, namespace, opening)?)),
        DueJob::Stream(stream) => Ok(stream_to_send(alloc, namespace, stream)?),
    }
}
