ghost use Rattle.std.specs.Prelude.{true, nat_lt, ◌≡◌, ◌<◌, ◌≤◌, None, IfSome, IfNone, IfOk, OnOk, OnErr, drop, length, map, vec_len};
ghost use Rattle.std.specs.Vec.{vec_capacity};
ghost use Rattle.watch_model.specs.Lookups.{watch_at, with_new_watch, without_watch, watch_changed, tickets_from};
ghost use Rattle.watch_model.specs.Queues.{first_item};
ghost use Rattle.watch_model.specs.Takes.{is_last};
ghost use Rattle.watch_model.specs.Splitting.{split};
ghost use Rattle.watch_queue.specs.Watching.{shown};
ghost use Rattle.watch_merge.specs.Watches.{IsWatchAt, place_at, has_message, is_other_watch, others, split_to, gap};
ghost use Rattle.watch_merge.specs.Taking.{joins_again, is_split, ends};

use etcd_types::{NoMemory, WatchItem};
use told_items::Told;
use watch_model::WatchPlace;
use watch_queue::{Watching, take_item};

/// Where the watch of this ticket stands.
pub fn place_of_watch(ticket: u64, watches: &[Watching]) -> Option<WatchPlace>
    requires { tickets_from 0 (map shown watches.now) ≡ true }
    ensures { result ≡ place_at (watch_at ticket (map shown watches.now)) }
{
    let at = index_of(ticket, watches)?;
    Some(watches[at].place)
}

/// Whether a message waits for the watch of this ticket.
pub fn has_message(ticket: u64, watches: &[Watching]) -> bool
    requires { tickets_from 0 (map shown watches.now) ≡ true }
    ensures { result ≡ has_message (watch_at ticket (map shown watches.now)) }
{
    match index_of(ticket, watches) {
        None => false,
        Some(at) => !watches[at].queue.is_empty(),
    }
}

/// The watch of this ticket is gone.
pub fn drop_watch(ticket: u64, watches: &mut Vec<Watching>)
    ensures { map shown watches.new.items ≡ without_watch ticket (map shown watches.old.items) }
{
    drop_all(ticket, watches);
}

fn drop_all(ticket: u64, watches: &mut Vec<Watching>)
    ensures { watches.new.items ≡ others ticket watches.old.items }
{
    watches.retain(
        |w: &Watching| -> bool
            ensures { result ≡ is_other_watch ticket w.now }
        { w.ticket != ticket },
    );
}

/// The watch of this ticket is split off, with this next.
pub fn split(ticket: u64, next: u64, watches: &mut Vec<Watching>)
    ensures { map shown watches.new.items ≡ map (watch_changed ticket (split next)) (map shown watches.old.items) }
{
    split_all(ticket, next, watches);
}

fn split_all(ticket: u64, next: u64, watches: &mut Vec<Watching>)
    ensures { watches.new.items ≡ map (split_to ticket next) watches.old.items }
{
    for watch in watches.iter_mut() {
        split_one(ticket, next, watch);
    }
}

fn split_one(ticket: u64, next: u64, watch: &mut Watching)
    ensures { watch.new ≡ split_to ticket next watch.old }
{
    if watch.ticket == ticket {
        watch.next = next;
        watch.place = WatchPlace::Split;
    }
}

/// The place of the watch of this ticket.
pub fn index_of(ticket: u64, watches: &[Watching]) -> Option<usize>
    requires { tickets_from 0 (map shown watches.now) ≡ true }
    ensures found { IfSome result (IsWatchAt ticket (map shown watches.now)) }
    ensures none { IfNone result (watch_at ticket (map shown watches.now) ≡ None) }
{
    let at = gap(ticket, watches);
    if at == watches.len() || watches[at].ticket != ticket {
        return None;
    }
    Some(at)
}

/// Whether the watch was split off, and joins again once its last item is taken.
pub fn joins_again(watch: &Watching) -> bool
    ensures { result ≡ joins_again (shown watch.now) }
{
    is_split(watch.place) && watch.queue.is_one()
}

fn is_split(place: WatchPlace) -> bool
    ensures { result ≡ is_split place }
{
    matches!(place, WatchPlace::Split)
}

/// Whether no item can come after it.
pub fn ends(item: &Option<Told>) -> bool
    ensures { result ≡ ends item.now }
{
    match item {
        Some(told) => is_last(told.item()),
        None => false,
    }
}

fn is_last(item: &WatchItem) -> bool
    ensures { result ≡ is_last item.now }
{
    match item {
        WatchItem::Canceled { .. } => true,
        WatchItem::Created(_) | WatchItem::Events { .. } => false,
    }
}

/// The watch stands in its place among rising tickets. There is room for it.
pub fn insert_watch(watch: Watching, watches: &mut Vec<Watching>)
    requires room { vec_len watches.old < vec_capacity watches.old }
    requires rising { tickets_from 0 (map shown watches.old.items) ≡ true }
    ensures { map shown watches.new.items ≡ with_new_watch (shown watch) (map shown watches.old.items) }
{
    let at = gap(watch.ticket, watches);
    watches.insert(at, watch).unwrap();
}

/// How many watches stand before one of this ticket.
pub fn gap(ticket: u64, watches: &[Watching]) -> usize
    requires { tickets_from 0 (map shown watches.now) ≡ true }
    ensures bound { result ≤ length watches.now }
    ensures gap { result ≡ gap ticket watches.now }
{
    watches.partition_point(
        |watch: &Watching| -> bool
            ensures { result ≡ nat_lt watch.now.ticket ticket }
        { watch.ticket < ticket },
    )
}

/// The first item is taken, and the watch stands there then. Where memory was wanting it is as before.
pub fn take_into(place: WatchPlace, watch: &mut Watching) -> Result<Option<Told>, NoMemory>
    ensures item { IfOk result (λ item. item ≡ first_item watch.old.queue.items) }
    ensures ok { OnOk result (shown watch.new ≡ record (shown watch.old) { queue = drop 1 watch.old.queue.items; place = place }) }
    ensures err { OnErr result (watch.new ≡ watch.old) }
{
    let item = take_item(watch)?;
    watch.place = place;
    Ok(item)
}
