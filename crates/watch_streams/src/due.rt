ghost use Rattle.std.specs.Prelude.{◌≡◌};
ghost use Rattle.std.specs.Option.{option_copied};
ghost use Rattle.watch_model.specs.Due.{first_due, earlier, earlier_of, is_before};
ghost use Rattle.watch_streams.specs.Idle.{none_due};

use crate::streams::is_begun;
use watch_model::{Stream, StreamPhase};

/// The stream with the first due closing or opening.
pub fn first_due(streams: &[Stream]) -> Option<&Stream>
    ensures { option_copied result ≡ first_due streams.now }
{
    let mut first = None;
    for stream in streams {
        first = earlier(first, stream);
    }
    first
}

/// The first of those before the stream, or the stream.
fn earlier<'a>(first: Option<&'a Stream>, stream: &'a Stream) -> Option<&'a Stream>
    ensures { option_copied result ≡ earlier (option_copied first.entry) stream.now stream.now.phase }
{
    match stream.phase {
        StreamPhase::Begun => first,
        StreamPhase::Due { .. } | StreamPhase::Closing { .. } => earlier_of(stream, first),
    }
}

fn earlier_of<'a>(stream: &'a Stream, first: Option<&'a Stream>) -> Option<&'a Stream>
    ensures { option_copied result ≡ earlier_of stream.now (option_copied first.entry) }
{
    match first {
        None => Some(stream),
        Some(found) => {
            if is_before(stream.phase, found.phase) {
                Some(stream)
            } else {
                Some(found)
            }
        }
    }
}

/// Whether what is due in the one phase comes before what is due in the other.
fn is_before(one: StreamPhase, other: StreamPhase) -> bool
    ensures { result ≡ is_before one other }
{
    match (one, other) {
        (StreamPhase::Begun, _) => false,
        (_, StreamPhase::Begun) => true,
        (StreamPhase::Closing { since: s }, StreamPhase::Due { since: t }) => s <= t,
        (StreamPhase::Closing { since: s }, StreamPhase::Closing { since: t }) => s < t,
        (StreamPhase::Due { since: s }, StreamPhase::Closing { since: t }) => s < t,
        (StreamPhase::Due { since: s }, StreamPhase::Due { since: t }) => s < t,
    }
}

/// Whether no closing or opening is due.
pub fn none_due(streams: &[Stream]) -> bool
    ensures { result ≡ none_due streams.now }
{
    for stream in streams {
        if !is_begun(stream.phase) {
            return false;
        }
    }
    true
}
