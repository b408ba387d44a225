ghost use Rattle.std.specs.Prelude.{◌≡◌, drop, IfOk, OnOk, OnErr};
ghost use Rattle.watch_model.specs.Joining.{new_watch, watched_range, seated_as};
ghost use Rattle.watch_model.specs.Queues.{first_item};
ghost use Rattle.watch_queue.specs.Watching.{shown};
ghost use Rattle.watch_queue.specs.Entering.{created_header_of, decided_to, told_to, created_to, prepared_created, entered};

use crate::head::Head;
use crate::queue::Queue;
use crate::watching::Watching;
use etcd_types::{Bytes, Header, NoMemory, WatchAsk};
use std::alloc::Global;
use told_items::Told;
use watch_model::WatchPlace;

/// A watch that isn't a member of a stream yet. An empty key of its range is read as one zero byte.
pub fn new_watch(alloc: Global, ticket: u64, ask: WatchAsk) -> Result<Watching, NoMemory>
    ensures { IfOk result (λ w. shown w ≡ new_watch ticket ask) }
{
    let ask = watched(alloc, ask)?;
    let queue = Queue::new(alloc)?;
    Ok(Watching {
        ticket,
        start: ask.start,
        next: ask.start,
        ask,
        told: false,
        queue,
        place: WatchPlace::Split,
        spare: None,
    })
}

fn watched(alloc: Global, ask: WatchAsk) -> Result<WatchAsk, NoMemory>
    ensures { IfOk result (λ a. a ≡ record ask { range = watched_range ask.range }) }
{
    let mut ask = ask;
    if ask.range.key.is_empty() {
        ask.range.key = Bytes::from_vec(Vec::from_slice(alloc, &[0])?);
    }
    Ok(ask)
}

/// Makes a watch's created item ready, where its stream's next is this.
pub fn ready_created(next: u64, last: Header, watch: &mut Watching) -> Result<(), NoMemory>
    ensures shown { shown watch.new ≡ shown watch.old }
    ensures ok { OnOk result (watch.new ≡ prepared_created next last watch.old) }
{
    if watch.told {
        return Ok(());
    }
    let start = if watch.next == 0 { next } else { watch.start };
    let header = created_header(last, watch.ask.start, start);
    watch.queue.stage_head(Head::Created(header))
}

/// The header of the created item of a watch that was asked for from this revision, and begins at that one.
pub fn created_header(last: Header, asked: u64, start: u64) -> Header
    ensures { result ≡ created_header_of last asked start }
{
    let mut header = last;
    if asked == 0 {
        header.revision = start.saturating_sub(1);
    }
    header
}

/// The watch's stream stands created, with this next: what was made ready is queued where no created item was.
pub fn begin(next: u64, watch: &mut Watching)
    ensures { watch.new ≡ created_to next watch.old }
{
    decide(next, watch);
    tell(watch);
}

fn decide(next: u64, watch: &mut Watching)
    ensures { watch.new ≡ decided_to next watch.old }
{
    if watch.next == 0 {
        watch.start = next;
        watch.next = next;
    }
}

fn tell(watch: &mut Watching)
    ensures { watch.new ≡ told_to watch.old }
{
    if !watch.told {
        watch.told = true;
        watch.queue.commit();
    }
}

/// The watch becomes a member of a stream of this number and next, which stands created or not.
pub fn enter(number: u64, next: u64, created: bool, watch: &mut Watching)
    ensures { watch.new ≡ entered number next created watch.old }
{
    if created {
        begin(next, watch);
    } else {
        decide(next, watch);
    }
    watch.place = WatchPlace::In(number);
}

/// The watch becomes a member of a stream of this number and next, and is told so where the stream stands created. Where
/// memory was wanting it is as before.
pub fn seat(
    number: u64,
    next: u64,
    created: bool,
    last: Header,
    watch: &mut Watching,
) -> Result<(), NoMemory>
    ensures ok { OnOk result (shown watch.new ≡ seated_as last number next created (shown watch.old)) }
    ensures err { OnErr result (shown watch.new ≡ shown watch.old) }
{
    if created {
        ready_created(next, last, watch)?;
    }
    enter(number, next, created, watch);
    Ok(())
}

/// The first item is taken, and the watch becomes a member as by `seat`. Where memory was wanting it is as before.
pub fn take_and_seat(
    number: u64,
    next: u64,
    created: bool,
    last: Header,
    watch: &mut Watching,
) -> Result<Option<Told>, NoMemory>
    ensures item { IfOk result (λ item. item ≡ first_item watch.old.queue.items) }
    ensures ok { OnOk result (shown watch.new ≡ seated_as last number next created (record (shown watch.old) { queue = drop 1 watch.old.queue.items })) }
    ensures err { OnErr result (shown watch.new ≡ shown watch.old) }
{
    if created {
        ready_created(next, last, watch)?;
    }
    let item = take_item(watch)?;
    enter(number, next, created, watch);
    Ok(item)
}

/// The first item is taken. Where memory was wanting the watch is as before.
pub fn take_item(watch: &mut Watching) -> Result<Option<Told>, NoMemory>
    ensures item { IfOk result (λ item. item ≡ first_item watch.old.queue.items) }
    ensures ok { OnOk result (watch.new ≡ record watch.old { queue = record { items = drop 1 watch.old.queue.items; staged = watch.old.queue.staged } }) }
    ensures err { OnErr result (watch.new ≡ watch.old) }
{
    watch.queue.take()
}
