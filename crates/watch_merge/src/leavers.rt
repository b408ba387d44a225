ghost use Rattle.std.specs.Prelude.{◌≡◌, ◌<◌, ◌≤◌, ◌+◌, ◌-◌, ◌^◌, ◌==◌, false, length, map, vec_len, None, Some};
ghost use Rattle.std.specs.Vec.{vec_capacity};
ghost use Rattle.watch_model.specs.Joining.{seated, seated_at};
ghost use Rattle.watch_queue.specs.Watching.{shown};
ghost use Rattle.watch_queue.specs.Leaving.{IsReadyToJoin, IsReady, AllReady};
ghost use Rattle.watch_merge.specs.Leavings.{watch_left, watches_left, joins, seats_for, seats};

use etcd_types::Header;
use watch_model::{Stream, WatchPlace};
use watch_queue::{Cancellation, Watching, end, enter_again, is_behind, is_in};
use watch_streams::{next_of, open, stream_to_join};

/// How many members of a cancelled stream join again.
pub fn seats(cancellation: Cancellation, watches: &[Watching]) -> usize
    ensures { result ≡ seats cancellation watches.now }
{
    let mut count = 0;
    for watch in watches {
        if joins(cancellation, watch) {
            count += 1;
        }
    }
    count
}

fn joins(cancellation: Cancellation, watch: &Watching) -> bool
    ensures { result ≡ joins cancellation watch.now }
{
    is_in(cancellation.stream, watch.place) && !is_behind(cancellation, watch)
}

/// The members of a cancelled stream, which is gone, leave it in rising order of their tickets: what was made ready for
/// them is queued, or they join again. There is room for a stream for each that does. How many stream numbers are given then.
pub fn leave_all(
    cancellation: Cancellation,
    step: u64,
    given: u64,
    streams: &mut Vec<Stream>,
    watches: &mut Vec<Watching>,
) -> u64
    requires known { (cancellation.next == 0) ≡ false }
    requires ready { AllReady cancellation watches.old.items }
    requires room { vec_len streams.old + seats cancellation watches.old.items ≤ vec_capacity streams.old }
    requires numbers { given < 2 ^ 63 }
    ensures { watches_left cancellation step streams.old.items given (map shown watches.old.items)
        ≡ record {
          streams = streams.new.items;
          given = result;
          watches = map shown watches.new.items;
        } }
{
    let mut numbers = given;
    for at in 0..watches.len() {
        numbers = leave(cancellation, step, numbers, streams, &mut watches[at]);
    }
    numbers
}

fn leave(
    cancellation: Cancellation,
    step: u64,
    given: u64,
    streams: &mut Vec<Stream>,
    watch: &mut Watching,
) -> u64
    requires known { (cancellation.next == 0) ≡ false }
    requires ready { IsReady cancellation watch.old }
    requires room { vec_len streams.old + seats_for cancellation watch.old ≤ vec_capacity streams.old }
    requires numbers { given < 2 ^ 64 - 1 }
    ensures left { watch_left cancellation step streams.old.items given (shown watch.old) ≡ record { streams = streams.new.items; given = result; watch = shown watch.new } }
    ensures one { vec_len streams.new ≤ vec_len streams.old + seats_for cancellation watch.old }
    ensures room { vec_capacity streams.old ≤ vec_capacity streams.new }
    ensures given { result ≤ given + 1 }
{
    if !is_in(cancellation.stream, watch.place) {
        return given;
    }
    if is_behind(cancellation, watch) {
        watch.next = watch.next.max(cancellation.next);
        end(watch);
        return given;
    }
    watch.next = watch.next.max(cancellation.next);
    watch.place = WatchPlace::Split;
    join_again(cancellation.last, step, given, streams, watch)
}

fn join_again(
    last: Header,
    step: u64,
    given: u64,
    streams: &mut Vec<Stream>,
    watch: &mut Watching,
) -> u64
    requires known { (watch.old.next == 0) ≡ false }
    requires ready { IsReadyToJoin last watch.old }
    requires room { vec_len streams.old < vec_capacity streams.old }
    requires numbers { given < 2 ^ 64 - 1 }
    ensures seated { seated streams.old.items given step last (shown watch.old) ≡ record { streams = streams.new.items; given = result; watch = shown watch.new } }
    ensures one { vec_len streams.new ≤ vec_len streams.old + 1 }
    ensures room { vec_capacity streams.old ≤ vec_capacity streams.new }
    ensures given { result ≤ given + 1 }
{
    let found = match stream_to_join(streams, &watch.ask.range, watch.next, last.revision) {
        None => return open_again(step, given, streams, watch),
        Some(found) => found,
    };
    let number = found.number;
    let next = next_of(found);
    let created = found.stream.is_created();
    enter_again(number, next, created, watch);
    watch.spare = None;
    given
}

/// A stream is due for the watch.
fn open_again(step: u64, given: u64, streams: &mut Vec<Stream>, watch: &mut Watching) -> u64
    requires spare { watch.old.spare ≡ Some watch.old.ask.range }
    requires room { vec_len streams.old < vec_capacity streams.old }
    requires numbers { given < 2 ^ 64 - 1 }
    ensures opened { (last : _) → seated_at streams.old.items given step last (shown watch.old) None
        ≡ record { streams = streams.new.items; given = result; watch = shown watch.new } }
    ensures one { vec_len streams.new ≤ vec_len streams.old + 1 }
    ensures room { vec_capacity streams.old ≤ vec_capacity streams.new }
    ensures given { result ≤ given + 1 }
{
    let Some(range) = watch.spare.take() else {
        unreachable!();
    };
    let number = given + 1;
    open(number, step, range, watch.next, streams);
    watch.place = WatchPlace::In(number);
    number
}
