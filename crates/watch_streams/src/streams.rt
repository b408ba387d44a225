ghost use Rattle.std.specs.Prelude.{◌≡◌, ◌<◌, ◌≤◌, ◌+◌, ◌++◌, ◌∷◌, [], length, nat_lt, vec_len, IfSome, IfNone, IfOk, None};
ghost use Rattle.std.specs.Vec.{vec_capacity};
ghost use Rattle.watch_model.specs.Lookups.{stream_at, is_closing, is_begun, is_due, is_other, with_stream, without_stream};
ghost use Rattle.watch_model.specs.Delivery.{advanced, is_awaited, created_stream};
ghost use Rattle.watch_model.specs.Due.{begun};
ghost use Rattle.watch_model.specs.Joining.{new_stream};
ghost use Rattle.proxy_model.specs.Upstream.{created};
ghost use Rattle.watch_model.specs.Splitting.{closed, emptied_as};
ghost use Rattle.watch_streams.specs.Places.{IsAt, sooner, reopened_at};
ghost use Rattle.watch_streams.specs.Rows.{IsNumbered};

use etcd_types::{KeyRange, NoMemory};
use std::alloc::Global;
use watch_model::{Stream, StreamPhase};
use watch_resume::Upstream;

/// The place of the stream with this number, among rising numbers.
pub fn place_of(number: u64, streams: &[Stream]) -> Option<usize>
    requires { IsNumbered streams.now }
    ensures found { IfSome result (IsAt number streams.now) }
    ensures none { IfNone result (stream_at number streams.now ≡ None) }
{
    let at = sooner(number, streams);
    if at == streams.len() || streams[at].number != number {
        return None;
    }
    Some(at)
}

/// How many streams have a smaller number.
fn sooner(number: u64, streams: &[Stream]) -> usize
    requires { IsNumbered streams.now }
    ensures bound { result ≤ length streams.now }
    ensures count { result ≡ sooner number streams.now }
{
    streams.partition_point(
        |stream: &Stream| -> bool
            ensures { result ≡ nat_lt stream.now.number number }
        { stream.number < number },
    )
}

/// Whether it is due to be closed.
pub fn is_closing(phase: StreamPhase) -> bool
    ensures { result ≡ is_closing phase }
{
    matches!(phase, StreamPhase::Closing { .. })
}

/// Whether its opening was sent, and it isn't due to be closed.
pub fn is_begun(phase: StreamPhase) -> bool
    ensures { result ≡ is_begun phase }
{
    matches!(phase, StreamPhase::Begun)
}

pub fn is_due(phase: StreamPhase) -> bool
    ensures { result ≡ is_due phase }
{
    matches!(phase, StreamPhase::Due { .. })
}

/// Whether its opening was sent, and its created message hasn't come.
pub fn is_awaited(stream: &Stream) -> bool
    ensures { result ≡ is_awaited stream.now }
{
    is_begun(stream.phase) && !stream.stream.is_created()
}

/// Its next revision once its created message came, whose header has this revision.
pub fn created_next(stream: &Stream, revision: u64) -> u64
    ensures { result ≡ (created stream.now.stream revision).next }
{
    match next_of(stream) {
        0 => revision.saturating_add(1),
        next => next,
    }
}

/// Its next revision, or 0 as long as only the created message can tell it.
pub fn next_of(stream: &Stream) -> u64
    ensures { result ≡ stream.now.stream.next }
{
    stream.stream.reopen().1
}

/// Its range.
pub fn range_of(stream: &Stream) -> &KeyRange
    ensures { result.now ≡ stream.now.stream.range }
{
    stream.stream.reopen().0
}

/// A copy of its range.
pub fn copy_range(alloc: Global, stream: &Stream) -> Result<KeyRange, NoMemory>
    ensures { IfOk result (λ range. range ≡ stream.now.stream.range) }
{
    stream.stream.reopen().0.copy(alloc)
}

/// The stream at this place goes to the end, under a new number, due from its next.
pub fn reopen(at: usize, number: u64, step: u64, streams: &mut Vec<Stream>)
    requires { at < length streams.old.items }
    ensures { streams.new.items ≡ reopened_at at number step streams.old.items }
{
    let mut stream = streams.remove(at);
    stream.number = number;
    stream.phase = StreamPhase::Due { since: step };
    stream.stream.cut();
    streams.push(stream).unwrap();
}

/// All events up to revision `last` were delivered on it.
pub fn advance(number: u64, last: u64, streams: &mut Vec<Stream>)
    requires { IsNumbered streams.old.items }
    ensures { streams.new.items ≡ with_stream number (advanced last) streams.old.items }
{
    if let Some(at) = place_of(number, streams) {
        advance_one(last, &mut streams[at]);
    }
}

fn advance_one(last: u64, stream: &mut Stream)
    ensures { stream.new ≡ advanced last stream.old }
{
    stream.stream.advance(last);
}

/// The stream has no members: it is due to be closed, or gone where it is still due.
pub fn empty(number: u64, step: u64, streams: &mut Vec<Stream>)
    requires { IsNumbered streams.old.items }
    ensures { streams.new.items ≡ emptied_as number step streams.old.items (stream_at number streams.old.items) }
{
    let Some(at) = place_of(number, streams) else {
        return;
    };
    if is_due(streams[at].phase) {
        drop_stream(number, streams);
    } else {
        close(number, step, streams);
    }
}

/// The stream of this number is gone.
pub fn drop_stream(number: u64, streams: &mut Vec<Stream>)
    ensures gone { streams.new.items ≡ without_stream number streams.old.items }
    ensures fewer { vec_len streams.new ≤ vec_len streams.old }
    ensures room { vec_capacity streams.new ≡ vec_capacity streams.old }
{
    streams.retain(
        |s: &Stream| -> bool
            ensures { result ≡ is_other number s.now }
        { s.number != number },
    );
}

fn close(number: u64, step: u64, streams: &mut Vec<Stream>)
    requires { IsNumbered streams.old.items }
    ensures { streams.new.items ≡ with_stream number (closed step) streams.old.items }
{
    if let Some(at) = place_of(number, streams) {
        close_one(step, &mut streams[at]);
    }
}

fn close_one(step: u64, stream: &mut Stream)
    ensures { stream.new ≡ closed step stream.old }
{
    stream.phase = StreamPhase::Closing { since: step };
}

/// Its created message came, whose header has this revision.
pub fn create(number: u64, revision: u64, streams: &mut Vec<Stream>)
    requires { IsNumbered streams.old.items }
    ensures { streams.new.items ≡ with_stream number (created_stream revision) streams.old.items }
{
    if let Some(at) = place_of(number, streams) {
        create_one(revision, &mut streams[at]);
    }
}

fn create_one(revision: u64, stream: &mut Stream)
    ensures { stream.new ≡ created_stream revision stream.old }
{
    stream.stream.created(revision);
}

/// Its opening is sent.
pub fn begin(number: u64, streams: &mut Vec<Stream>)
    requires { IsNumbered streams.old.items }
    ensures { streams.new.items ≡ with_stream number begun streams.old.items }
{
    if let Some(at) = place_of(number, streams) {
        begin_one(&mut streams[at]);
    }
}

fn begin_one(stream: &mut Stream)
    ensures { stream.new ≡ begun stream.old }
{
    stream.phase = StreamPhase::Begun;
}

/// A stream over the range is due to be opened from this start on. There is room for it.
pub fn open(number: u64, step: u64, range: KeyRange, start: u64, streams: &mut Vec<Stream>)
    requires { vec_len streams.old < vec_capacity streams.old }
    ensures opened { streams.new.items ≡ streams.old.items ++ new_stream number step range start ∷ [] }
    ensures one { vec_len streams.new ≡ vec_len streams.old + 1 }
    ensures room { vec_capacity streams.old ≤ vec_capacity streams.new }
{
    let stream = Stream {
        number,
        phase: StreamPhase::Due { since: step },
        stream: Upstream::opened(range, start),
    };
    streams.push(stream).unwrap();
}
