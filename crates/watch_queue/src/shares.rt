ghost use Rattle.std.specs.Prelude.{◌≡◌, true, IfOk, IfSome};
ghost use Rattle.etcd_types.specs.declared.watch.WatchItem.TheVariants.{Events};
ghost use Rattle.watch_model.specs.Queues.{chosen};
ghost use Rattle.watch_model.specs.Delivery.{shown_events};
ghost use Rattle.watch_queue.specs.Shared.{values};
ghost use Rattle.watch_queue.specs.Shares.{IsOf};

use crate::batch::Batch;
use crate::chosen::chosen_count;
use crate::fate::{Fate, fate_at};
use crate::watching::Watching;
use direct_json::item_text;
use etcd_types::{Event, Header, List, NoMemory, WatchAsk, WatchItem};
use std::alloc::Global;
use std::sync::Arc;
use told_items::Told;

/// The message of a batch for the members that take all of it: of those that asked for the records before the changes, and of
/// the others. It stands where two of them share it.
#[derive(Drop)]
pub struct Shares {
    pub(crate) whole: Option<Told>,
    pub(crate) bare: Option<Told>,
}

impl Shares {
    /// The messages that members of the stream of this number and next share, each made once, with its text.
    pub fn new(
        alloc: Global,
        number: u64,
        next: u64,
        header: Header,
        batch: &Batch,
        watches: &[Watching],
    ) -> Result<Shares, NoMemory>
        ensures { IfOk result (IsOf header batch.now) }
    {
        let whole = message_if(
            is_shared(number, next, batch, true, watches),
            alloc,
            header,
            batch.whole(),
        )?;
        let bare = message_if(
            is_shared(number, next, batch, false, watches),
            alloc,
            header,
            batch.bare(),
        )?;
        Ok(Shares { whole, bare })
    }

    /// The shared message, where it is what a watch of this ask and next is given of the batch.
    pub fn told(&self, header: Header, batch: &Batch, from: u64, ask: &WatchAsk) -> Option<&Told>
        requires { IsOf header batch.now self.now }
        ensures { IfSome result (λ t. t.now ≡ Events header (chosen ask.now from (shown_events ask.now batch.now))) }
    {
        if is_whole(batch.events_for(ask), from, ask) {
            self.asked(header, batch, ask)
        } else {
            None
        }
    }

    fn asked(&self, header: Header, batch: &Batch, ask: &WatchAsk) -> Option<&Told>
        requires { IsOf header batch.now self.now }
        ensures { IfSome result (λ t. t.now ≡ Events header (shown_events ask.now batch.now)) }
    {
        if ask.prev_kv {
            self.whole.as_ref()
        } else {
            self.bare.as_ref()
        }
    }
}

/// Whether all of these events are for the watch.
fn is_whole(events: &[Arc<Event, Global>], from: u64, ask: &WatchAsk) -> bool
    ensures { result ≡ true → chosen ask.now from (values events.now) ≡ values events.now }
{
    chosen_count(events, from, ask) == events.len()
}

/// Whether two members take the whole batch, of those that asked for the records before the changes or of the others.
fn is_shared(number: u64, next: u64, batch: &Batch, asked: bool, watches: &[Watching]) -> bool {
    let mut one = false;
    for watch in watches {
        if takes_whole(number, next, batch, asked, watch) {
            if one {
                return true;
            }
            one = true;
        }
    }
    false
}

fn takes_whole(number: u64, next: u64, batch: &Batch, asked: bool, watch: &Watching) -> bool {
    watch.ask.prev_kv == asked
        && fate_at(number, next, batch, watch) == Fate::Takes
        && is_whole(
            batch.events_for(&watch.ask),
            watch.next.max(next),
            &watch.ask,
        )
}

/// The message of these events, where it is shared.
fn message_if(
    shared: bool,
    alloc: Global,
    header: Header,
    events: &[Arc<Event, Global>],
) -> Result<Option<Told>, NoMemory>
    ensures { IfOk result (λ o. IfSome o (λ t. t ≡ Events header (values events.now))) }
{
    if shared {
        Ok(Some(message(alloc, header, events)?))
    } else {
        Ok(None)
    }
}

/// The message of these events, with its text.
fn message(alloc: Global, header: Header, events: &[Arc<Event, Global>]) -> Result<Told, NoMemory>
    ensures { IfOk result (λ t. t ≡ Events header (values events.now)) }
{
    let item = WatchItem::Events {
        header,
        events: copies(alloc, events)?,
    };
    let text = item_text(alloc, &item)?;
    Ok(Told::shared(alloc, item, text)?)
}

fn copies(alloc: Global, events: &[Arc<Event, Global>]) -> Result<List<Event>, NoMemory>
    ensures { IfOk result (λ copies. copies ≡ values events.now) }
{
    let mut copies = List::with_room(alloc, events.len())?;
    for event in events {
        copies.push(event.copy(alloc)?)?;
    }
    Ok(copies)
}
