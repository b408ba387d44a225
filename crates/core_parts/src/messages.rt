ghost use Rattle.std.specs.Prelude.{◌≡◌};
ghost use Rattle.watch_model.specs.Delivery.{is_batch, changed_key};
ghost use Rattle.core_model.specs.LeasingStream.{told_revision, is_readable};

use etcd_types::{Bytes, Change, Event, Header, List};
use watch_queue::revision_of;
use watch_resume::Upstream;

/// Whether the stream's next revision is known, and these are events of its range from there on, whose revisions don't fall.
pub fn is_readable(stream: &Upstream, events: &List<Event>) -> bool
    ensures { result ≡ is_readable stream.now events.now }
{
    stream.reopen().1 != 0 && is_batch(stream, events)
}

fn is_batch(stream: &Upstream, events: &List<Event>) -> bool
    ensures { result ≡ is_batch stream.now.range stream.now.next events.now }
{
    let (range, start) = stream.reopen();
    let mut from = start;
    for event in events.as_slice() {
        if revision_of(event) < from || !range.contains(key_of(event)) {
            return false;
        }
        from = revision_of(event);
    }
    true
}

fn key_of(event: &Event) -> &Bytes
    ensures { result.now ≡ changed_key event.now.change }
{
    match &event.change {
        Change::Put(kv) => &kv.key,
        Change::Delete { key, .. } => key,
    }
}

/// Up to which revision a message tells: the last event's, or the header's where there is none.
pub fn told_revision(header: Header, events: &List<Event>) -> u64
    ensures { result ≡ told_revision header events.now }
{
    let mut last = header.revision;
    for event in events.as_slice() {
        last = revision_of(event);
    }
    last
}
