ghost use Rattle.std.specs.Prelude.{◌≡◌, None, if◌then◌else◌};
ghost use Rattle.std.specs.Option.{option_copied};
ghost use Rattle.watch_model.specs.Joining.{is_joinable, better, best_of, is_opening_from_now, opening_from_now, stream_to_join};

use crate::streams::{is_closing, next_of};
use etcd_types::KeyRange;
use watch_model::Stream;

/// The stream that a watch of the range joins, where its own next is this, or 0 while it isn't decided, and `seen` the
/// highest revision seen.
pub fn stream_to_join<'a>(
    streams: &'a [Stream],
    range: &KeyRange,
    next: u64,
    seen: u64,
) -> Option<&'a Stream>
    ensures { option_copied result ≡ stream_to_join streams.now range.now next seen }
{
    if next != 0 {
        return best_of(range, next, streams);
    }
    match best_of(range, seen.saturating_add(1), streams) {
        Some(found) => Some(found),
        None => opening_from_now(range, streams),
    }
}

/// The one with the greatest next up to the limit, and of equal ones the first.
fn best_of<'a>(range: &KeyRange, limit: u64, streams: &'a [Stream]) -> Option<&'a Stream>
    ensures { option_copied result ≡ best_of range.now limit None streams.now }
{
    let mut best = None;
    for stream in streams {
        best = best_of_two(range, limit, best, stream);
    }
    best
}

pub fn best_of_two<'a>(
    range: &KeyRange,
    limit: u64,
    best: Option<&'a Stream>,
    stream: &'a Stream,
) -> Option<&'a Stream>
    ensures { option_copied result ≡ (if is_joinable range.now limit stream.now then better stream.now (option_copied best.entry) else option_copied best.entry) }
{
    if is_joinable(range, limit, stream) {
        better(stream, best)
    } else {
        best
    }
}

fn better<'a>(stream: &'a Stream, best: Option<&'a Stream>) -> Option<&'a Stream>
    ensures { option_copied result ≡ better stream.now (option_copied best.entry) }
{
    match best {
        None => Some(stream),
        Some(found) => {
            if next_of(found) < next_of(stream) {
                Some(stream)
            } else {
                Some(found)
            }
        }
    }
}

fn is_joinable(range: &KeyRange, limit: u64, stream: &Stream) -> bool
    ensures { result ≡ is_joinable range.now limit stream.now }
{
    stream.stream.reopen().0 == range
        && !is_closing(stream.phase)
        && next_of(stream) != 0
        && next_of(stream) <= limit
}

/// One that is being opened from 0.
fn opening_from_now<'a>(range: &KeyRange, streams: &'a [Stream]) -> Option<&'a Stream>
    ensures { option_copied result ≡ opening_from_now range.now streams.now }
{
    for stream in streams {
        if is_opening_from_now(range, stream) {
            return Some(stream);
        }
    }
    None
}

pub fn is_opening_from_now(range: &KeyRange, stream: &Stream) -> bool
    ensures { result ≡ is_opening_from_now range.now stream.now }
{
    stream.stream.reopen().0 == range && !is_closing(stream.phase) && next_of(stream) == 0
}
