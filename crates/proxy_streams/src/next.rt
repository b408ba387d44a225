ghost use Rattle.std.specs.Prelude.{◌≡◌, ◌≤◌, ℕ, None, IfOk};
ghost use Rattle.http_wire.specs.Connections.{bytes_ahead};
ghost use Rattle.server_model.specs.StreamParts.{Opens, Nexts, cut_at, stop_by};
ghost use Rattle.server_model.specs.Following.{end_by};

use api_reply::decode_item;
use etcd_types::WatchItem;
use http_wire::{Framing, Wire, WireFault};
use json_model::NotReply;
use outside::{AnswerEnd, Source};
use server_model::{StreamEnd, StreamStop};
use std::alloc::Global;

/// How following a stream ends by a fault of its wire.
fn end_by(fault: WireFault) -> StreamEnd
    ensures { result ≡ end_by fault }
{
    match fault {
        WireFault::NoMemory => StreamEnd::NoMemory,
        _ => StreamEnd::Cut,
    }
}

/// How a stream stops by a fault in its body: the answer counts as too long where a line passed the limit.
fn stop_by(fault: WireFault) -> StreamStop
    ensures { result ≡ stop_by fault }
{
    match fault {
        WireFault::NoMemory => cut_at(StreamEnd::NoMemory),
        WireFault::BodyTooLong => StreamStop {
            end: StreamEnd::Cut,
            read: AnswerEnd::TooLong,
        },
        WireFault::BadHead
        | WireFault::HeadTooLong
        | WireFault::BadChunk
        | WireFault::EndedEarly
        | WireFault::ReadFault
        | WireFault::WriteFault => cut_at(StreamEnd::Cut),
    }
}

/// The end of a stream whose answer isn't read on.
pub(crate) fn cut_at(end: StreamEnd) -> StreamStop
    ensures { result ≡ cut_at end }
{
    StreamStop {
        end,
        read: AnswerEnd::Broken,
    }
}

/// Reads the head of the answer, which has to have status 200. What is told of its end holds by any limit of lines.
pub(crate) fn open<S: Source>(wire: &mut Wire, source: &mut S) -> Result<Framing, StreamStop>
    requires sound { wire.old.fault ≡ None }
    ensures sound { IfOk result (λ framing. wire.new.fault ≡ None) }
    ensures kept { S.faults source.old ≤ S.faults source.new }
    ensures opens { (most : ℕ) → Opens most
        (bytes_ahead (S.left source.old) wire.old) (bytes_ahead (S.left source.new) wire.new)
        (S.faults source.old) (S.faults source.new) result }
{
    match wire.read_answer(source) {
        Ok(head) => {
            if head.status == 200 {
                Ok(head.framing)
            } else {
                Err(cut_at(StreamEnd::Cut))
            }
        }
        Err(fault) => Err(cut_at(end_by(fault))),
    }
}

/// Reads the next line, of at most so many bytes, which has to be a message.
pub(crate) fn next<S: Source>(
    alloc: Global,
    wire: &mut Wire,
    source: &mut S,
    framing: &mut Framing,
    most: usize,
) -> Result<WatchItem, StreamStop>
    requires sound { wire.old.fault ≡ None }
    ensures sound { IfOk result (λ item. wire.new.fault ≡ None) }
    ensures kept { S.faults source.old ≤ S.faults source.new }
    ensures nexts { Nexts most framing.old framing.new
        (bytes_ahead (S.left source.old) wire.old) (bytes_ahead (S.left source.new) wire.new)
        (S.faults source.old) (S.faults source.new) result }
{
    let line = match wire.next_line(source, framing, most) {
        Ok(Some(line)) => line,
        Ok(None) => return Err(cut_at(StreamEnd::Cut)),
        Err(fault) => return Err(stop_by(fault)),
    };
    match decode_item(alloc, line.as_slice()) {
        Ok(item) => Ok(item),
        Err(NotReply::Unreadable) => Err(cut_at(StreamEnd::Cut)),
        Err(NotReply::NoMemory) => Err(cut_at(StreamEnd::NoMemory)),
    }
}
