ghost use Rattle.std.specs.Prelude.{◌≡◌, ◌&&◌, ◌||◌, nat_le, nat_lt, ℕ, [], false, Some, List as Values, IfOk};
ghost use Rattle.audit_clients.specs.Given.{Gave};
ghost use Rattle.audit_clients.specs.Takings.{TakesOk};
ghost use Rattle.audit_clients.specs.Turns.{is_created as is_a_start};
ghost use Rattle.std.specs.List.{list_any};
ghost use Rattle.audit_model.specs.Takes.{pushes_cancellation, takes_as as is_taken_as, takes_by as is_taken_by, takes_so as take_is_so};
ghost use Rattle.script_text.specs.declared.item.Item.TheVariants as item;
ghost use Rattle.audit_store.specs.Store.{Stands};
ghost use Rattle.etcd_types.specs.declared.record.Header.{Header as Head};
ghost use Rattle.etcd_types.specs.declared.watch.WatchItem.{WatchItem as Message};
ghost use Rattle.script_text.specs.declared.item.Item.{Item as Told};
ghost use Rattle.watch_model.specs.Queues.{is_nil};
ghost use Rattle.etcd_types.specs.declared.watch.WatchItem.TheVariants.{Events};
ghost use Rattle.world_model.specs.Answers.{seen};
ghost use Rattle.world_model.specs.Lives.{namespace_of as namespace};

use crate::events::{goes_on, has_come};
use crate::given::Given;
use crate::taken::{is_created, is_progress, start_of};
use crate::takings::{Taking, watch_of};
use audit_store::Store;
use etcd_types::{Event, Header, List, NoMemory, WatchAsk, WatchItem};
use std::alloc::Global;

/// Whether a message without events is one that the watch asked for, no newer than the store, and all events up to it were taken.
fn takes_progress(
    alloc: Global,
    store: &Store,
    given: &Given,
    ask: &WatchAsk,
    taking: Taking,
    header: &Header,
) -> Result<bool, NoMemory>
    ensures { IfOk result (λ so. (items : Values Told) (start : ℕ) (taken : Values Message) → Stands store.now (seen items).store → Gave given.now items → TakesOk (seen items).store (namespace items) ask.now taken (Some taking)
        → taking.start ≡ Some start → so ≡ is_taken_as items ask.now start taken (Events header.now [])) }
{
    let namespace = given.namespace(alloc)?;
    let has_all = has_come(
        alloc,
        store,
        &namespace,
        ask,
        taking.revision,
        taking.count,
        header.revision,
    )?;
    let last = store.newest();
    Ok(is_due_progress(ask, header.revision, last, has_all))
}

/// Whether a message without events is asked for, of this revision, which the store has, and all up to it was taken.
fn is_due_progress(ask: &WatchAsk, revision: u64, last: u64, has_all: bool) -> bool
    ensures { result ≡ ask.now.progress && nat_le revision last && has_all }
{
    ask.progress && revision <= last && has_all
}

/// Whether the events of the message are the next ones of the watch.
fn takes_events(
    alloc: Global,
    store: &Store,
    given: &Given,
    ask: &WatchAsk,
    taking: Taking,
    events: &List<Event>,
) -> Result<bool, NoMemory>
    ensures { IfOk result (λ so. (items : Values Told) (start : ℕ) (taken : Values Message) (header : Head) → Stands store.now (seen items).store → Gave given.now items → TakesOk (seen items).store (namespace items) ask.now taken (Some taking)
        → taking.start ≡ Some start → is_nil events.now ≡ false → so ≡ is_taken_as items ask.now start taken (Events header events.now)) }
{
    let namespace = given.namespace(alloc)?;
    Ok(goes_on(
        alloc,
        store,
        &namespace,
        ask,
        taking.revision,
        taking.count,
        events.as_slice(),
    )?)
}

/// Whether a cancellation was pushed that names this compaction revision, and it is above what the watch came to.
fn takes_cancellation(given: &Given, taking: Taking, compaction: u64) -> bool
    ensures { (items : Values Told) → Gave given.now items → result ≡ list_any (pushes_cancellation compaction) items && nat_lt taking.next compaction }
{
    let is_pushed = given.index().has_cancelled_at(compaction);
    is_pushed && taking.next < u128::from(compaction)
}

/// Whether the watch takes the message next, where it begins at this revision and took some.
fn takes_as(
    alloc: Global,
    store: &Store,
    given: &Given,
    ask: &WatchAsk,
    taking: Taking,
    message: &WatchItem,
) -> Result<bool, NoMemory>
    ensures { IfOk result (λ so. (items : Values Told) (start : ℕ) (taken : Values Message) → Stands store.now (seen items).store → Gave given.now items
        → TakesOk (seen items).store (namespace items) ask.now taken (Some taking) → taking.start ≡ Some start
        → so ≡ is_taken_as items ask.now start taken message.now) }
{
    match message {
        WatchItem::Created(_) => Ok(true),
        WatchItem::Events { header, events } => {
            if is_progress(events) {
                Ok(takes_progress(alloc, store, given, ask, taking, header)?)
            } else {
                Ok(takes_events(alloc, store, given, ask, taking, events)?)
            }
        }
        WatchItem::Canceled { compact, .. } => { Ok(takes_cancellation(given, taking, *compact)) }
    }
}

/// Whether the message comes out of turn: created comes once, and nothing follows a cancellation.
fn is_over(taking: Taking, message: &WatchItem) -> bool
    ensures { result ≡ is_a_start message.now || taking.cancelled }
{
    is_created(message) || taking.cancelled
}

/// Whether the watch, which took some, takes the message next.
fn takes_later(
    alloc: Global,
    store: &Store,
    given: &Given,
    ask: &WatchAsk,
    taking: Taking,
    message: &WatchItem,
) -> Result<bool, NoMemory>
    ensures { IfOk result (λ so. (items : Values Told) (taken : Values Message) → Stands store.now (seen items).store → Gave given.now items
        → TakesOk (seen items).store (namespace items) ask.now taken (Some taking) → so ≡ is_taken_by items ask.now taken message.now) }
{
    if is_over(taking, message) {
        return Ok(false);
    }
    match taking.start {
        Some(_) => Ok(takes_as(alloc, store, given, ask, taking, message)?),
        None => Ok(false),
    }
}

/// Whether the message is the first one that the watch takes: that it was created, by which its start is decided.
fn takes_first(ask: &WatchAsk, message: &WatchItem) -> bool
    ensures { (items : Values Told) → result ≡ is_taken_by items ask.now [] message.now }
{
    is_created(message) && start_of(ask, &[], message).is_some()
}

fn takes_by(
    alloc: Global,
    store: &Store,
    given: &Given,
    ask: &WatchAsk,
    taking: Option<Taking>,
    message: &WatchItem,
) -> Result<bool, NoMemory>
    ensures { IfOk result (λ so. (items : Values Told) (taken : Values Message) → Stands store.now (seen items).store → Gave given.now items
        → TakesOk (seen items).store (namespace items) ask.now taken taking → so ≡ is_taken_by items ask.now taken message.now) }
{
    match taking {
        Some(taking) => Ok(takes_later(alloc, store, given, ask, taking, message)?),
        None => Ok(takes_first(ask, message)),
    }
}

/// Whether the watch of a ticket takes what is next for it: that it was created, then a prefix of the history's events for it, with a
/// message without events only where it asked for such and has all events up to it, and at most one cancellation, at the end.
pub fn takes_so(
    alloc: Global,
    store: &Store,
    given: &Given,
    proxy: u64,
    ticket: u64,
    message: &WatchItem,
) -> Result<bool, NoMemory>
    ensures { IfOk result (λ so. (items : Values Told) → Stands store.now (seen items).store → Gave given.now items → so ≡ take_is_so items (item.Taken proxy ticket message.now)) }
{
    match watch_of(given.index().asked_as(proxy, ticket)) {
        Some(ask) => Ok(takes_by(
            alloc,
            store,
            given,
            ask,
            given.taking(proxy, ticket),
            message,
        )?),
        None => Ok(true),
    }
}
