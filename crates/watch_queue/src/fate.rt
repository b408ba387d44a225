ghost use Rattle.std.specs.Prelude.{◌≡◌};
ghost use Rattle.watch_queue.specs.Watching.{shown};
ghost use Rattle.watch_queue.specs.Fates.{fate};

use crate::batch::Batch;
use crate::chosen::chosen_count;
use crate::members::is_in;
use crate::watching::Watching;

/// What becomes of a watch at a batch.
#[derive(Clone, Copy, Debug, PartialEq, Eq)]
pub enum Fate {
    /// Nothing of it is for the watch.
    Stays,
    /// It is queued.
    Takes,
    /// The queue would pass its limit.
    Splits,
}

/// What becomes of the watch: `next` is the next of the stream of this number.
pub fn fate_at(number: u64, next: u64, batch: &Batch, watch: &Watching) -> Fate
    ensures { result ≡ fate number next batch.now (shown watch.now) }
{
    if !is_in(number, watch.place) {
        return Fate::Stays;
    }
    let count = chosen_count(
        batch.events_for(&watch.ask),
        watch.next.max(next),
        &watch.ask,
    );
    if count == 0 {
        Fate::Stays
    } else if watch.queue.would_pass(count) {
        Fate::Splits
    } else {
        Fate::Takes
    }
}
