ghost use Rattle.std.specs.Prelude.{◌≡◌};
ghost use Rattle.watch_model.specs.Queues.{is_nil};
ghost use Rattle.watch_model.specs.Delivery.{is_batch, is_told, changed_key, last_revision};

use etcd_types::{Bytes, Change, Event, List};
use watch_model::Stream;
use watch_queue::revision_of;
use watch_streams::next_of;

/// Whether it is a message without events.
pub fn is_nil(events: &List<Event>) -> bool
    ensures { result ≡ is_nil events.now }
{
    match events.as_slice() {
        [] => true,
        _ => false,
    }
}

/// Whether the stream's next is known, and these are a batch behind it.
pub fn is_told(stream: &Stream, events: &List<Event>) -> bool
    ensures { result ≡ is_told stream.now events.now }
{
    next_of(stream) != 0 && is_batch(stream, events)
}

/// Whether the events don't fall, from the stream's next on, and are of keys of its range.
fn is_batch(stream: &Stream, events: &List<Event>) -> bool
    ensures { result ≡ is_batch stream.now.stream.range stream.now.stream.next events.now }
{
    let (range, start) = stream.stream.reopen();
    let mut from = start;
    for event in events.as_slice() {
        if revision_of(event) < from || !range.contains(key_of(event)) {
            return false;
        }
        from = revision_of(event);
    }
    true
}

fn key_of(event: &Event) -> &Bytes
    ensures { result.now ≡ changed_key event.now.change }
{
    match &event.change {
        Change::Put(kv) => &kv.key,
        Change::Delete { key, .. } => key,
    }
}

/// The revision of the last event, or 0 where there is none.
pub fn last_revision(events: &List<Event>) -> u64
    ensures { result ≡ last_revision 0 events.now }
{
    let mut last = 0;
    for event in events.as_slice() {
        last = revision_of(event);
    }
    last
}
