ghost use Rattle.std.specs.Prelude.{◌≡◌, IsTrue};
ghost use Rattle.server_model.specs.StreamParts.{Feeds, IsCut, end_of};
ghost use Rattle.proxy_server.specs.Stays.{Stays};

use core_model::{CoreEvent, StepFault};
use etcd_types::WatchItem;
use outside::{Clock, ReadMark, Source};
use proxy_server::Turn;
use server_model::{StreamEnd, TurnFault};

/// How long a stream rests that couldn't be begun, or for which memory was wanting, in milliseconds: a core opens a stream that was cut again,
/// and would turn for ever.
const PAUSE_MS: u64 = 1_000;

/// How following a stream ends by another fault of a step.
fn end_of(fault: TurnFault) -> StreamEnd
    ensures { result ≡ end_of fault }
{
    match fault {
        TurnFault::Core(StepFault::NoSuchStream(_)) => StreamEnd::Gone,
        TurnFault::Worn | TurnFault::Core(_) => StreamEnd::Worn,
    }
}

/// Lets some time pass before a stream is cut.
pub(crate) fn linger<C: Clock>(clock: &mut C) {
    clock.pause(PAUSE_MS);
}

/// Lets the source of a stream that is about to be cut rest, where it is to.
pub(crate) fn rest_if<S: Source>(source: &mut S, rests: bool)
    ensures bytes { S.left source.new ≡ S.left source.old }
    ensures kept { S.faults source.new ≡ S.faults source.old }
{
    if rests {
        source.mark(ReadMark::Rest);
    }
}

/// Cuts the stream.
pub(crate) fn cut<T: Turn, C: Clock>(
    turn: &mut T,
    clock: &mut C,
    stream: u64,
    end: StreamEnd,
) -> StreamEnd
    ensures stays { Stays T.home T.worn T.allowed turn.old turn.new }
    ensures cut { IsCut (IsTrue (T.worn turn.new)) stream end result
        (T.made turn.old) (T.made turn.new) }
{
    let fault = match turn.turn(CoreEvent::Cut { stream }, clock) {
        Ok(_) => return end,
        Err(fault) => fault,
    };
    if fault.is_worn() {
        StreamEnd::Worn
    } else {
        end
    }
}

/// Feeds a message. None where the stream goes on.
pub(crate) fn feed<T: Turn, C: Clock>(
    turn: &mut T,
    clock: &mut C,
    stream: u64,
    item: WatchItem,
) -> Option<StreamEnd>
    ensures stays { Stays T.home T.worn T.allowed turn.old turn.new }
    ensures feeds { Feeds (IsTrue (T.worn turn.new)) stream item
        (T.made turn.old) (T.made turn.new) result }
{
    let fault = match turn.turn(CoreEvent::Item { stream, item }, clock) {
        Ok(_) => return None,
        Err(fault) => fault,
    };
    if fault.is_for_memory() {
        linger(clock);
        Some(cut(turn, clock, stream, StreamEnd::NoMemory))
    } else {
        Some(end_of(fault))
    }
}

/// Feeds a message, and tells the source that it came from that it was heard. None where the stream goes on.
pub(crate) fn feed_from<T: Turn, S: Source, C: Clock>(
    turn: &mut T,
    clock: &mut C,
    source: &mut S,
    stream: u64,
    item: WatchItem,
) -> Option<StreamEnd>
    ensures stays { Stays T.home T.worn T.allowed turn.old turn.new }
    ensures feeds { Feeds (IsTrue (T.worn turn.new)) stream item
        (T.made turn.old) (T.made turn.new) result }
    ensures bytes { S.left source.new ≡ S.left source.old }
    ensures kept { S.faults source.new ≡ S.faults source.old }
{
    let end = feed(turn, clock, stream, item);
    source.mark(ReadMark::Message);
    end
}
