ghost use Rattle.std.specs.Prelude.{◌≡◌, IsTrue};
ghost use Rattle.server_model.specs.Following.{Following};
ghost use Rattle.server_model.specs.StreamParts.{IsFollowed};
ghost use Rattle.proxy_server.specs.Stays.{Stays};

use crate::feed::{cut, feed_from, linger, rest_if};
use crate::next::{cut_at, next, open};
use etcd_types::WatchItem;
use http_talk::is_cancel;
use http_wire::Wire;
use outside::{AnswerEnd, CallKind, Clock, Follow, Link, LinkFault, Source};
use proxy_server::Turn;
use server_model::{StreamEnd, StreamStop};
use std::alloc::Global;
use std::sync::Wait;

/// Whether a message brings events.
fn has_events(item: &WatchItem) -> bool {
    match item {
        WatchItem::Events { events, .. } => !events.as_slice().is_empty(),
        WatchItem::Created(_) | WatchItem::Canceled { .. } => false,
    }
}

/// Whether a message ends its watch for another cause than a compaction: the core opens such a stream again at once.
fn is_refusal(item: &WatchItem) -> bool {
    matches!(item, WatchItem::Canceled { compact: 0, .. })
}

/// Follows a stream that was begun, until it ends: reads the answer that its source gives, in lines of at most so many bytes, feeds each of its messages to the turn,
/// and cuts the stream at the end, but where the core doesn't know it any more or no further step can be made. A message that cancels
/// the watch is the last one: a member leaves such a stream open.
fn follow_on<R: Wait, T: Turn, S: Source, C: Clock>(
    rt: &R,
    alloc: Global,
    turn: &mut T,
    clock: &mut C,
    stream: u64,
    most: usize,
    source: &mut S,
) -> StreamStop
    ensures stays { Stays T.home T.worn T.allowed turn.old turn.new }
    ensures following { Following (IsTrue (T.worn turn.new)) most stream
        (S.left source.old) (S.faults source.old) (S.faults source.new)
        (T.made turn.old) (T.made turn.new) result.read result.end }
{
    let Ok(mut wire) = Wire::new(alloc) else {
        linger(clock);
        return cut_at(cut(turn, clock, stream, StreamEnd::NoMemory));
    };
    let mut framing = match open(&mut wire, source) {
        Ok(framing) => framing,
        Err(stop) => {
            rest_if(source, true);
            let end = cut(turn, clock, stream, stop.end);
            return StreamStop { end, ..stop };
        }
    };
    let mut eventful = false;
    'messages: for _ in rt.forever() {
        let item = match next(alloc, &mut wire, source, &mut framing, most) {
            Ok(item) => item,
            Err(stop) => {
                rest_if(source, !eventful || stop.read == AnswerEnd::TooLong);
                let end = cut(turn, clock, stream, stop.end);
                return StreamStop { end, ..stop };
            }
        };
        rest_if(source, !eventful && is_refusal(&item));
        let more = has_events(&item);
        let is_last = is_cancel(&item);
        match feed_from(turn, clock, source, stream, item) {
            None if is_last => return cut_at(cut(turn, clock, stream, StreamEnd::Cut)),
            None => eventful |= more,
            Some(end) => return cut_at(end),
        }
    }
    unreachable!()
}

/// Begins the stream that is named on the link, follows it, with lines of at most `most` bytes, and gives its answer back. Where it can't be begun, it is cut at once.
pub fn follow_stream<R: Wait, T: Turn, L: Link, C: Clock>(
    rt: &R,
    alloc: Global,
    turn: &mut T,
    clock: &mut C,
    link: &mut L,
    follow: &Follow,
    most: usize,
) -> StreamEnd
    ensures stays { Stays T.home T.worn T.allowed turn.old turn.new }
    ensures followed { IsFollowed (IsTrue (T.worn turn.new)) most follow.now
        (L.made link.old) (L.made link.new) (L.faults link.old) (L.faults link.new)
        (T.made turn.old) (T.made turn.new) result }
{
    let kind = CallKind::Watches(follow.stream);
    match link.begin(follow.member, kind, follow.call.as_slice()) {
        Ok(answer) => {
            let mut source = answer;
            let stop = follow_on(rt, alloc, turn, clock, follow.stream, most, &mut source);
            link.end(source, stop.read);
            stop.end
        }
        Err(LinkFault::Failed) => {
            linger(clock);
            cut(turn, clock, follow.stream, StreamEnd::Cut)
        }
        Err(LinkFault::NoMemory) => {
            linger(clock);
            cut(turn, clock, follow.stream, StreamEnd::NoMemory)
        }
    }
}
