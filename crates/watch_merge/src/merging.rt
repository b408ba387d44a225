ghost use Rattle.std.specs.Prelude.{◌≡◌, ◌<◌, ◌+◌, length, map, take, set, get_or};
ghost use Rattle.watch_model.specs.Lookups.{stream_at};
ghost use Rattle.watch_model.specs.Merging.{is_of, keeper, kept_by, merged_number, merged_place, merged_stream, merged_watch};
ghost use Rattle.watch_queue.specs.Watching.{shown, moved_as};
ghost use Rattle.watch_merge.specs.Twins.{has_twins};
ghost use Rattle.watch_streams.specs.Rows.{Backed, IsNumbered};

use etcd_types::KeyRange;
use watch_model::{Stream, StreamPhase, WatchPlace};
use watch_queue::Watching;
use watch_streams::{RangeIndex, next_of, place_of};

/// Whether a stream of the range has its members kept by an earlier one. All streams are looked at only where several have the range.
pub fn any_twins(index: &RangeIndex, range: &KeyRange, streams: &[Stream]) -> bool
    requires { Backed index.now streams.now }
    ensures { result ≡ has_twins range.now streams.now }
{
    !index.is_alone(range) && has_twins(range, streams)
}

fn has_twins(range: &KeyRange, streams: &[Stream]) -> bool
    ensures { result ≡ has_twins range.now streams.now }
{
    for stream in streams {
        if kept_by(range, streams, stream) != stream.number {
            return true;
        }
    }
    false
}

/// Members of streams of the range that become one are those of the one that keeps them.
pub fn move_members(range: &KeyRange, streams: &[Stream], watches: &mut Vec<Watching>)
    requires { IsNumbered streams.now }
    ensures { map shown watches.new.items ≡ map (merged_watch range.now streams.now) (map shown watches.old.items) }
{
    move_all(range, streams, watches);
}

fn move_all(range: &KeyRange, streams: &[Stream], watches: &mut Vec<Watching>)
    requires { IsNumbered streams.now }
    ensures { watches.new.items ≡ map (moved_as range.now streams.now) watches.old.items }
{
    for watch in watches.iter_mut() {
        move_one(range, streams, watch);
    }
}

fn move_one(range: &KeyRange, streams: &[Stream], watch: &mut Watching)
    requires { IsNumbered streams.now }
    ensures { watch.new ≡ moved_as range.now streams.now watch.old }
{
    watch.place = kept_place(range, streams, watch.place);
}

fn kept_place(range: &KeyRange, streams: &[Stream], place: WatchPlace) -> WatchPlace
    requires { IsNumbered streams.now }
    ensures { result ≡ merged_place range.now streams.now place }
{
    match place {
        WatchPlace::In(number) => WatchPlace::In(kept_number(range, streams, number)),
        WatchPlace::Split => WatchPlace::Split,
        WatchPlace::Ended => WatchPlace::Ended,
    }
}

/// The number of the stream that keeps the members of that of this number.
fn kept_number(range: &KeyRange, streams: &[Stream], number: u64) -> u64
    requires { IsNumbered streams.now }
    ensures { result ≡ merged_number range.now streams.now number (stream_at number streams.now) }
{
    match place_of(number, streams) {
        None => number,
        Some(at) => kept_by(range, streams, &streams[at]),
    }
}

fn kept_by(range: &KeyRange, streams: &[Stream], stream: &Stream) -> u64
    ensures { result ≡ kept_by range.now streams.now stream.now }
{
    if is_of(range, stream) {
        keeper(range, next_of(stream), stream.number, streams)
    } else {
        stream.number
    }
}

/// The number of the first that stands created with this next, or else this number.
fn keeper(range: &KeyRange, next: u64, number: u64, streams: &[Stream]) -> u64
    ensures { result ≡ keeper range.now next number streams.now }
{
    for stream in streams {
        if is_of(range, stream) && next_of(stream) == next {
            return stream.number;
        }
    }
    number
}

fn is_of(range: &KeyRange, stream: &Stream) -> bool
    ensures { result ≡ is_of range.now stream.now }
{
    stream.stream.reopen().0 == range
        && matches!(stream.phase, StreamPhase::Begun)
        && stream.stream.is_created()
}

/// The streams of the range whose members another keeps are due to be closed.
pub fn close_others(range: &KeyRange, step: u64, streams: &mut Vec<Stream>)
    ensures { streams.new.items ≡ map (merged_stream range.now streams.old.items step) streams.old.items }
{
    for left in 0..streams.len() {
        let at = streams.len() - 1 - left;
        close_at(range, step, at, streams);
    }
}

/// The stream at this place is due to be closed where an earlier one keeps its members.
fn close_at(range: &KeyRange, step: u64, at: usize, streams: &mut Vec<Stream>)
    requires { at < length streams.old.items }
    ensures { (d : Stream) → streams.new.items ≡ set streams.old.items at (merged_stream range.now (take (at + 1) streams.old.items) step (get_or streams.old.items at d)) }
{
    let number = streams[at].number;
    if kept_by(range, &streams[..at + 1], &streams[at]) == number {
        return;
    }
    streams[at].phase = StreamPhase::Closing { since: step };
}
