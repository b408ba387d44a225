//! What the messages tell that a watch took so far: whether the next one comes in turn, where the watch began, how far it has come, and
//! its events.

ghost use Rattle.std.specs.Prelude.{◌≡◌, ◌++◌, ◌∷◌, [], List as Values};
ghost use Rattle.audit_clients.specs.Turns.{is_created as is_a_start};
ghost use Rattle.audit_model.specs.Streams.{is_cancellation as is_cancelling};
ghost use Rattle.audit_model.specs.Takes.{after_message as next_behind};
ghost use Rattle.etcd_types.specs.declared.watch.WatchItem.{WatchItem as Message};
ghost use Rattle.watch_model.specs.Queues.{is_nil};
ghost use Rattle.world_model.specs.Received.{created_start as start_behind, last_from as last_behind, start_of as start_for};

use crate::events::event_revision;
use etcd_types::{Event, List, WatchAsk, WatchItem};

pub(crate) fn is_cancellation(message: &WatchItem) -> bool
    ensures { result ≡ is_cancelling message.now }
{
    match message {
        WatchItem::Canceled { .. } => true,
        _ => false,
    }
}

pub(crate) fn is_created(message: &WatchItem) -> bool
    ensures { result ≡ is_a_start message.now }
{
    match message {
        WatchItem::Created(_) => true,
        _ => false,
    }
}

/// The first revision behind a created message. It may be above 64 bits.
fn created_start(message: &WatchItem) -> Option<u128>
    ensures { (rest : Values Message) → result ≡ start_behind (message.now ∷ rest) }
{
    match message {
        WatchItem::Created(header) => Some(u128::from(header.revision) + 1),
        _ => None,
    }
}

/// Where the watch begins: at the revision that it asked for, or behind that of its created message.
pub(crate) fn start_of(ask: &WatchAsk, taken: &[WatchItem], message: &WatchItem) -> Option<u128>
    ensures { result ≡ start_for ask.now (taken.now ++ message.now ∷ []) }
{
    if ask.start != 0 {
        return Some(u128::from(ask.start));
    }
    match taken {
        [] => created_start(message),
        [first, ..] => created_start(first),
    }
}

/// The least revision that can still come behind these events.
fn last_from(next: u128, events: &[Event]) -> u128
    ensures result { result ≡ last_behind next events.now }
{
    let mut last = next;
    for event in events {
        last = last.max(u128::from(event_revision(event)) + 1);
    }
    last
}

/// The least revision that can still come behind a message.
pub(crate) fn after_message(next: u128, message: &WatchItem) -> u128
    ensures { result ≡ next_behind next message.now }
{
    match message {
        WatchItem::Events { header, events } => {
            if is_progress(events) {
                next.max(u128::from(header.revision) + 1)
            } else {
                last_from(next, events.as_slice())
            }
        }
        _ => next,
    }
}

pub(crate) fn is_progress(events: &List<Event>) -> bool
    ensures { result ≡ is_nil events.now }
{
    events.len() == 0
}
