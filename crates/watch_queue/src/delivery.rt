ghost use Rattle.std.specs.Prelude.{◌≡◌, ◌+◌, ◌∷◌, [], nat_le, map, OnOk, OnErr};
ghost use Rattle.etcd_types.specs.declared.watch.WatchItem.TheVariants.{Events};
ghost use Rattle.watch_model.specs.Lookups.{member_changed};
ghost use Rattle.watch_model.specs.Queues.{chosen};
ghost use Rattle.watch_model.specs.Delivery.{given_batch, progressed, shown_events};
ghost use Rattle.watch_queue.specs.Watching.{shown};
ghost use Rattle.watch_queue.specs.Shares.{IsOf};
ghost use Rattle.watch_queue.specs.Fates.{prepared, delivered_to, takes_progress, prepared_progress, progressed_to};

use crate::batch::Batch;
use crate::fate::{Fate, fate_at};
use crate::head::Head;
use crate::members::is_in;
use crate::queue::Queue;
use crate::shares::Shares;
use crate::watching::Watching;
use etcd_types::{Header, NoMemory, WatchAsk};
use std::alloc::Global;
use watch_model::WatchPlace;

/// Makes ready what a watch of this ask and next is given of a batch: a share of its message where it takes all of it.
fn stage_batch(
    alloc: Global,
    header: Header,
    batch: &Batch,
    shares: &Shares,
    from: u64,
    ask: &WatchAsk,
    queue: &mut Queue,
) -> Result<(), NoMemory>
    requires { IsOf header batch.now shares.now }
    ensures items { queue.new.items ≡ queue.old.items }
    ensures ok { OnOk result (queue.new.staged ≡ Events header (chosen ask.now from (shown_events ask.now batch.now)) ∷ []) }
{
    match shares.told(header, batch, from, ask) {
        Some(told) => queue.stage_told(told.share(alloc)?),
        None => queue.stage(header, batch.events_for(ask), from, ask),
    }
}

fn stage_one(
    alloc: Global,
    number: u64,
    next: u64,
    header: Header,
    batch: &Batch,
    shares: &Shares,
    watch: &mut Watching,
) -> Result<(), NoMemory>
    requires { IsOf header batch.now shares.now }
    ensures shown { shown watch.new ≡ shown watch.old }
    ensures ok { OnOk result (watch.new ≡ prepared number next header batch.now watch.old) }
{
    match fate_at(number, next, batch, watch) {
        Fate::Takes => stage_batch(
            alloc,
            header,
            batch,
            shares,
            watch.next.max(next),
            &watch.ask,
            &mut watch.queue,
        ),
        Fate::Stays | Fate::Splits => Ok(()),
    }
}

fn commit_one(number: u64, next: u64, batch: &Batch, watch: &mut Watching)
    ensures { watch.new ≡ delivered_to number next batch.now watch.old }
{
    match fate_at(number, next, batch, watch) {
        Fate::Takes => watch.queue.commit(),
        Fate::Splits => {
            watch.next = watch.next.max(next);
            watch.place = WatchPlace::Split;
        }
        Fate::Stays => {}
    }
}

/// Makes a batch ready for all members that are to have it.
fn stage_all(
    alloc: Global,
    number: u64,
    next: u64,
    header: Header,
    batch: &Batch,
    shares: &Shares,
    watches: &mut Vec<Watching>,
) -> Result<(), NoMemory>
    requires { IsOf header batch.now shares.now }
    ensures ok { OnOk result (watches.new.items ≡ map (prepared number next header batch.now) watches.old.items) }
    ensures shown { map shown watches.new.items ≡ map shown watches.old.items }
{
    for at in 0..watches.len() {
        stage_one(alloc, number, next, header, batch, shares, &mut watches[at])?;
    }
    Ok(())
}

fn commit_all(number: u64, next: u64, batch: &Batch, watches: &mut Vec<Watching>)
    ensures { watches.new.items ≡ map (delivered_to number next batch.now) watches.old.items }
{
    for watch in watches.iter_mut() {
        commit_one(number, next, batch, watch);
    }
}

/// Gives a batch to the members of the stream of this number and next: to all of them, or to none where memory was wanting.
pub fn give(
    alloc: Global,
    number: u64,
    next: u64,
    header: Header,
    batch: &Batch,
    watches: &mut Vec<Watching>,
) -> Result<(), NoMemory>
    ensures ok { OnOk result (map shown watches.new.items ≡ map (member_changed number (given_batch next header batch.now)) (map shown watches.old.items)) }
    ensures err { OnErr result (map shown watches.new.items ≡ map shown watches.old.items) }
{
    let shares = Shares::new(alloc, number, next, header, batch, watches)?;
    stage_all(alloc, number, next, header, batch, &shares, watches)?;
    commit_all(number, next, batch, watches);
    Ok(())
}

fn takes_progress(number: u64, next: u64, header: Header, watch: &Watching) -> bool
    ensures { result ≡ takes_progress number next header (shown watch.now) }
{
    is_in(number, watch.place)
        && watch.ask.progress
        && is_up_to(watch.next.max(next), header.revision)
}

/// Whether `own` is at most the revision behind this one.
pub fn is_up_to(own: u64, revision: u64) -> bool
    ensures { result ≡ nat_le own (revision + 1) }
{
    own == 0 || own - 1 <= revision
}

fn stage_progress(
    number: u64,
    next: u64,
    header: Header,
    watch: &mut Watching,
) -> Result<(), NoMemory>
    ensures shown { shown watch.new ≡ shown watch.old }
    ensures ok { OnOk result (watch.new ≡ prepared_progress number next header watch.old) }
{
    if takes_progress(number, next, header, watch) {
        watch.queue.stage_head(Head::Events { header, count: 0 })
    } else {
        Ok(())
    }
}

fn commit_progress(number: u64, next: u64, header: Header, watch: &mut Watching)
    ensures { watch.new ≡ progressed_to number next header watch.old }
{
    if takes_progress(number, next, header, watch) {
        watch.queue.commit_progress(header);
    }
}

fn stage_all_progress(
    number: u64,
    next: u64,
    header: Header,
    watches: &mut Vec<Watching>,
) -> Result<(), NoMemory>
    ensures ok { OnOk result (watches.new.items ≡ map (prepared_progress number next header) watches.old.items) }
    ensures shown { map shown watches.new.items ≡ map shown watches.old.items }
{
    for at in 0..watches.len() {
        stage_progress(number, next, header, &mut watches[at])?;
    }
    Ok(())
}

fn commit_all_progress(number: u64, next: u64, header: Header, watches: &mut Vec<Watching>)
    ensures { watches.new.items ≡ map (progressed_to number next header) watches.old.items }
{
    for watch in watches.iter_mut() {
        commit_progress(number, next, header, watch);
    }
}

/// Tells the members that asked for it how far they have come: all of them, or none where memory was wanting.
pub fn give_progress(
    number: u64,
    next: u64,
    header: Header,
    watches: &mut Vec<Watching>,
) -> Result<(), NoMemory>
    ensures ok { OnOk result (map shown watches.new.items ≡ map (member_changed number (progressed next header)) (map shown watches.old.items)) }
    ensures err { OnErr result (map shown watches.new.items ≡ map shown watches.old.items) }
{
    stage_all_progress(number, next, header, watches)?;
    commit_all_progress(number, next, header, watches);
    Ok(())
}
