ghost use Rattle.std.specs.Prelude.{◌≡◌, ◌≤◌, IfErr, IsErrOf};
ghost use Rattle.outside.specs.Faults.{Rose};
ghost use Rattle.json_model.specs.WrittenReplies.{item_text};
ghost use Rattle.http_wire.specs.Written.{Writes, chunk};
ghost use Rattle.http_talk.specs.Replies as spec;
ghost use Rattle.http_talk.specs.Telling.{Tells, IsOfWriting};

use crate::form::{RefusalForm, encode_by};
use api_reply::encode_item;
use etcd_types::{Answer, WatchItem};
use http_wire::{WireFault, begin_chunks, end_chunks, write_chunk, write_reply};
use outside::{Sink, WriteMark};
use std::alloc::Global;
use told_items::Told;

/// Writes the reply that an answer is.
#[tactic(auto, unfolding(crate::specs::Replies::reply_of), using(crate::proofs::Said::tells_by, crate::proofs::Said::front_none))]
fn write_answer<K: Sink>(
    alloc: Global,
    form: RefusalForm,
    sink: &mut K,
    answer: &Answer,
) -> Result<(), WireFault>
    ensures written { Tells (K.written sink.old) (K.written sink.new)
        (spec.reply_of form answer.now) result }
    ensures fault { IfErr result IsOfWriting }
    ensures cause { IsErrOf result WireFault.WriteFault
        → Rose (K.faults sink.old) (K.faults sink.new) }
    ensures kept { K.faults sink.old ≤ K.faults sink.new }
{
    let Ok((status, text)) = encode_by(alloc, form, answer) else {
        return Err(WireFault::NoMemory);
    };
    write_reply(alloc, sink, status, text.as_slice())
}

/// Tells a reply. Where a reply in chunks was begun, only its end is left to tell.
#[tactic(auto, unfolding(crate::specs::Replies::said_as_reply))]
pub fn tell<K: Sink>(
    alloc: Global,
    form: RefusalForm,
    sink: &mut K,
    begun: bool,
    answer: &Answer,
) -> Result<(), WireFault>
    ensures written { Tells (K.written sink.old) (K.written sink.new)
        (spec.said_as_reply form begun answer.now) result }
    ensures fault { IfErr result IsOfWriting }
    ensures cause { IsErrOf result WireFault.WriteFault
        → Rose (K.faults sink.old) (K.faults sink.new) }
    ensures kept { K.faults sink.old ≤ K.faults sink.new }
{
    if begun {
        end_chunks(sink)
    } else {
        write_answer(alloc, form, sink, answer)
    }
}

/// Writes the head of a reply in chunks, where that isn't written yet.
fn begin<K: Sink>(sink: &mut K, begun: bool) -> Result<(), WireFault>
    ensures written { Tells (K.written sink.old) (K.written sink.new)
        (spec.head_unless begun) result }
    ensures fault { IfErr result IsOfWriting }
    ensures cause { IsErrOf result WireFault.WriteFault
        → Rose (K.faults sink.old) (K.faults sink.new) }
    ensures kept { K.faults sink.old ≤ K.faults sink.new }
{
    if begun { Ok(()) } else { begin_chunks(sink) }
}

/// Writes the end of a reply in chunks, behind the last one.
fn end<K: Sink>(sink: &mut K, last: bool) -> Result<(), WireFault>
    ensures written { Tells (K.written sink.old) (K.written sink.new) (spec.end_if last) result }
    ensures fault { IfErr result IsOfWriting }
    ensures cause { IsErrOf result WireFault.WriteFault
        → Rose (K.faults sink.old) (K.faults sink.new) }
    ensures kept { K.faults sink.old ≤ K.faults sink.new }
{
    if last { end_chunks(sink) } else { Ok(()) }
}

/// Whether the message ends its watch.
pub fn is_cancel(item: &WatchItem) -> bool
    ensures { result ≡ spec.is_cancel item.now }
{
    match item {
        WatchItem::Canceled { .. } => true,
        WatchItem::Created(_) | WatchItem::Events { .. } => false,
    }
}

/// How many events a message tells.
fn events_in(item: &WatchItem) -> u64 {
    match item {
        WatchItem::Events { events, .. } => events.len() as u64,
        WatchItem::Created(_) | WatchItem::Canceled { .. } => 0,
    }
}

/// Writes the chunk of a message. The sink hears how many events it tells.
fn write_message<K: Sink>(
    alloc: Global,
    sink: &mut K,
    item: &WatchItem,
    text: &[u8],
) -> Result<(), WireFault>
    ensures written { Writes (K.written sink.old) (K.written sink.new) (chunk text.now) result }
    ensures cause { IsErrOf result WireFault.WriteFault
        → Rose (K.faults sink.old) (K.faults sink.new) }
    ensures kept { K.faults sink.old ≤ K.faults sink.new }
{
    sink.mark(WriteMark::Events(events_in(item)));
    write_chunk(alloc, sink, text)
}

/// Tells a message of a watch, whose text this is.
fn tell_text<K: Sink>(
    alloc: Global,
    sink: &mut K,
    begun: bool,
    item: &WatchItem,
    text: &[u8],
) -> Result<(), WireFault>
    requires text { text.now ≡ item_text item.now }
    ensures written { Tells (K.written sink.old) (K.written sink.new)
        (spec.said_in_chunk begun item.now) result }
    ensures fault { IfErr result IsOfWriting }
    ensures cause { IsErrOf result WireFault.WriteFault
        → Rose (K.faults sink.old) (K.faults sink.new) }
    ensures kept { K.faults sink.old ≤ K.faults sink.new }
{
    match begin(sink, begun) {
        Ok(()) => {}
        Err(fault) => return Err(fault),
    }
    match write_message(alloc, sink, item, text) {
        Ok(()) => {}
        Err(fault) => return Err(fault),
    }
    end(sink, is_cancel(item))
}

/// Tells a message of a watch. Its text is made here where it wasn't made for all who have it.
pub fn tell_item<K: Sink>(
    alloc: Global,
    sink: &mut K,
    begun: bool,
    told: &Told,
) -> Result<(), WireFault>
    ensures written { Tells (K.written sink.old) (K.written sink.new)
        (spec.said_in_chunk begun told.now) result }
    ensures fault { IfErr result IsOfWriting }
    ensures cause { IsErrOf result WireFault.WriteFault
        → Rose (K.faults sink.old) (K.faults sink.new) }
    ensures kept { K.faults sink.old ≤ K.faults sink.new }
{
    if let Some(text) = told.text() {
        return tell_text(alloc, sink, begun, told.item(), text);
    }
    match encode_item(alloc, told.item()) {
        Ok(text) => tell_text(alloc, sink, begun, told.item(), text.as_slice()),
        Err(_) => Err(WireFault::NoMemory),
    }
}
