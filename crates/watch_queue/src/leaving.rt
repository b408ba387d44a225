ghost use Rattle.std.specs.Prelude.{◌≡◌, false, ◌==◌, map, OnOk};
ghost use Rattle.watch_model.specs.Joining.{seated_as};
ghost use Rattle.watch_model.specs.Cuts.{ended};
ghost use Rattle.watch_queue.specs.Watching.{shown};
ghost use Rattle.watch_queue.specs.Leaving.{is_behind, prepared_told, prepared_end, prepared_again, prepared_left, IsReadyToEnd, IsReadyToJoin, AllReady};

use crate::entering::{created_header, enter};
use crate::head::Head;
use crate::members::is_in;
use crate::watching::Watching;
use etcd_types::{Header, NoMemory};
use std::alloc::Global;
use watch_model::WatchPlace;

/// A stream's cancellation that names a compaction.
#[derive(Clone, Copy, Debug)]
pub struct Cancellation {
    pub stream: u64,
    /// The stream's next revision, above 0.
    pub next: u64,
    pub header: Header,
    /// The compaction revision, above 0: who is behind it has lost events.
    pub compact: u64,
    /// The highest header that was delivered.
    pub last: Header,
}

/// Makes ready what the members of a cancelled stream are given, or need to join again, of all of them or of none.
pub fn ready_to_leave(
    alloc: Global,
    cancellation: Cancellation,
    watches: &mut Vec<Watching>,
) -> Result<(), NoMemory>
    ensures ready { OnOk result (AllReady cancellation watches.new.items) }
    ensures shown { map shown watches.new.items ≡ map shown watches.old.items }
{
    ready_all(alloc, cancellation, watches)?;
    Ok(())
}

fn ready_all(
    alloc: Global,
    cancellation: Cancellation,
    watches: &mut Vec<Watching>,
) -> Result<(), NoMemory>
    ensures ok { OnOk result (watches.new.items ≡ map (prepared_left cancellation) watches.old.items) }
    ensures shown { map shown watches.new.items ≡ map shown watches.old.items }
{
    for at in 0..watches.len() {
        ready_one(alloc, cancellation, &mut watches[at])?;
    }
    Ok(())
}

fn ready_one(
    alloc: Global,
    cancellation: Cancellation,
    watch: &mut Watching,
) -> Result<(), NoMemory>
    ensures shown { shown watch.new ≡ shown watch.old }
    ensures ok { OnOk result (watch.new ≡ prepared_left cancellation watch.old) }
{
    if !is_in(cancellation.stream, watch.place) {
        return Ok(());
    }
    if is_behind(cancellation, watch) {
        ready_end(cancellation, watch)
    } else {
        ready_again(alloc, cancellation.last, watch)
    }
}

/// Whether the watch is behind the compaction.
pub fn is_behind(cancellation: Cancellation, watch: &Watching) -> bool
    ensures { result ≡ is_behind cancellation watch.now }
{
    watch.next.max(cancellation.next) < cancellation.compact
}

fn ready_end(cancellation: Cancellation, watch: &mut Watching) -> Result<(), NoMemory>
    ensures shown { shown watch.new ≡ shown watch.old }
    ensures ok { OnOk result (watch.new ≡ prepared_end cancellation watch.old) }
{
    watch.queue.stage_head(Head::Canceled {
        header: cancellation.header,
        compact: cancellation.compact,
    })
}

fn ready_again(alloc: Global, last: Header, watch: &mut Watching) -> Result<(), NoMemory>
    ensures shown { shown watch.new ≡ shown watch.old }
    ensures ok { OnOk result (watch.new ≡ prepared_again last watch.old) }
{
    let range = watch.ask.range.copy(alloc)?;
    watch.spare = Some(range);
    ready_told(last, watch)
}

fn ready_told(last: Header, watch: &mut Watching) -> Result<(), NoMemory>
    ensures shown { shown watch.new ≡ shown watch.old }
    ensures ok { OnOk result (watch.new ≡ prepared_told last watch.old) }
{
    if watch.told {
        return Ok(());
    }
    let header = created_header(last, watch.ask.start, watch.start);
    watch.queue.stage_head(Head::Created(header))
}

/// The watch ends: the cancellation that was made ready is queued.
pub fn end(watch: &mut Watching)
    ensures { (c : _) → IsReadyToEnd c watch.old → shown watch.new ≡ ended c.header c.compact (shown watch.old) }
{
    watch.queue.commit();
    watch.place = WatchPlace::Ended;
}

/// The watch, whose next is known, becomes a member of a stream of this number and next, which stands created or not.
/// What was made ready is queued.
pub fn enter_again(number: u64, next: u64, created: bool, watch: &mut Watching)
    ensures { (last : _) → IsReadyToJoin last watch.old → (watch.old.next == 0) ≡ false → shown watch.new ≡ seated_as last number next created (shown watch.old) }
{
    enter(number, next, created, watch);
}
