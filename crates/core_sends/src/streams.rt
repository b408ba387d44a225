ghost use Rattle.std.specs.Prelude.{◌≡◌, IfOk};
ghost use Rattle.core_model.specs.Watching.{watch_from};
ghost use Rattle.core_sends.specs.ToSend.{opening_to_send, begin_to_send, stream_to_send};

use crate::sendings::ToSend;
use core_parts::{Opening, watch_of};
use etcd_types::{KeyRange, NoMemory, Request, WatchAsk};
use namespace_keys::Namespace;
use std::alloc::Global;
use watch_model::{Stream, StreamPhase};

pub(crate) fn opening_to_send(
    alloc: Global,
    namespace: &Namespace,
    opening: &Opening,
) -> Result<ToSend, NoMemory>
    ensures { IfOk result (λ send. send ≡ opening_to_send namespace.now opening.now) }
{
    let request = watch_of(alloc, &opening.stream)?;
    Ok(ToSend::Open {
        stream: opening.number,
        request: namespace.wrap_request(alloc, &request)?,
    })
}

pub(crate) fn stream_to_send(
    alloc: Global,
    namespace: &Namespace,
    stream: &Stream,
) -> Result<Option<ToSend>, NoMemory>
    ensures { IfOk result (λ send. send ≡ stream_to_send namespace.now stream.now stream.now.phase) }
{
    match stream.phase {
        StreamPhase::Begun => Ok(None),
        StreamPhase::Closing { .. } => Ok(Some(ToSend::Close {
            stream: stream.number,
        })),
        StreamPhase::Due { .. } => Ok(Some(begin_to_send(alloc, namespace, stream)?)),
    }
}

fn begin_to_send(alloc: Global, namespace: &Namespace, stream: &Stream) -> Result<ToSend, NoMemory>
    ensures { IfOk result (λ send. send ≡ begin_to_send namespace.now stream.now) }
{
    let (range, start) = stream.stream.reopen();
    let request = watch_from(range.copy(alloc)?, start);
    Ok(ToSend::Begin {
        stream: stream.number,
        request: namespace.wrap_request(alloc, &request)?,
    })
}

/// The opening of a stream for watches of any kind: no event is left out, each brings the record before it, and progress is told.
fn watch_from(range: KeyRange, start: u64) -> Request
    ensures { result ≡ watch_from range start }
{
    Request::Watch(WatchAsk {
        range,
        start,
        no_put: false,
        no_delete: false,
        prev_kv: true,
        progress: true,
    })
}
