ghost use Rattle.std.specs.Prelude.{◌≡◌, ◌||◌, ℕ, ◌++◌, ◌∷◌, [], true, None, Some, if◌then◌else◌, length, List as Values, IfOk, OnOk};
ghost use Rattle.audit_clients.specs.Spots.{next_spot as spot_next, spot_behind as spot_after};
ghost use Rattle.audit_clients.specs.Takings.{Follows, IsTaking, Takes, Tracks, asked_watch, taking_at, taking_from};
ghost use Rattle.std.specs.Option.{option_copied};
ghost use Rattle.audit_lives.specs.Index.{TellsAll};
ghost use Rattle.audit_model.specs.Order.{in_order};
ghost use Rattle.audit_model.specs.Streams.{is_cancellation as is_cancelling};
ghost use Rattle.audit_model.specs.Takes.{takes_so};
ghost use Rattle.script_text.specs.declared.item.Item.{Item as Told};
ghost use Rattle.etcd_types.specs.declared.request.WatchAsk.{WatchAsk as Ask};
ghost use Rattle.etcd_types.specs.declared.watch.WatchItem.{WatchItem as Message};
ghost use Rattle.first_places.specs.Places.{is_pair};
ghost use Rattle.watch_model.specs.Queues.{item_events};
ghost use Rattle.world_model.specs.Received.{or_zero as zero_or};

use crate::events::event_revision;
use crate::taken::{after_message, is_cancellation, start_of};
use audit_lives::Index;
use etcd_types::{Event, NoMemory, Request, WatchAsk, WatchItem};
use script_text::Item;
use std::alloc::Global;
use std::collections::BTreeMap;
use std::marker::Model;

/// No count is higher than this.
const LAST_COUNT: u64 = 0xffff_ffff_ffff_ffff;

/// Where a watch stands that took messages.
#[derive(Clone, Copy, Debug)]
pub(crate) struct Taking {
    /// The place of the item by which it took the last one.
    pub(crate) place: u64,
    /// The revision from which its events are, where that is decided.
    pub(crate) start: Option<u128>,
    /// Whether it took a cancellation.
    pub(crate) cancelled: bool,
    /// The least revision that can still come.
    pub(crate) next: u128,
    /// The revision of the last event that it took, or its start.
    pub(crate) revision: u128,
    /// How many events of that revision it took.
    pub(crate) count: u64,
}

/// Where the watches stand, by their proxies and tickets. Contracts see it as a list of pairs, each with what is kept for it.
#[derive(Drop)]
pub(crate) struct Takings {
    map: BTreeMap<(u64, u64), Taking>,
}

impl Model for Takings {
    ghost use Rattle.std.specs.Prelude.{List, ℕ};
    ghost use Rattle.audit_clients.specs.declared.takings.Taking.{Taking};

    ghost Value = { List ((ℕ × ℕ) × Taking) };

    ghost view = { λ t. t.map.entries };
}

impl Takings {
    /// No watch took anything. It takes no memory.
    pub(crate) fn new(alloc: Global) -> Takings
        ensures { (a b : ℕ) → taking_at result a b ≡ None }
    {
        Takings {
            map: BTreeMap::new(alloc),
        }
    }

    /// Where the watch stands, where what is kept isn't from before this start.
    pub(crate) fn find(&self, start: u64, proxy: u64, ticket: u64) -> Option<Taking>
        ensures { result ≡ taking_from start (taking_at self.now proxy ticket) }
    {
        match self.map.get(&(proxy, ticket)) {
            Some(taking) => {
                if start <= taking.place {
                    Some(*taking)
                } else {
                    None
                }
            }
            None => None,
        }
    }

    fn put(&mut self, proxy: u64, ticket: u64, taking: Taking) -> Result<(), NoMemory>
        ensures { OnOk result ((a b : ℕ) → taking_at self.new a b ≡ (if is_pair (Some (proxy, ticket)) a b then Some taking else taking_at self.old a b)) }
    {
        self.map.insert((proxy, ticket), taking)?;
        Ok(())
    }

    /// With the next item.
    pub(crate) fn follow(&mut self, index: &Index, item: &Item) -> Result<(), NoMemory>
        ensures { OnOk result ((items : Values Told) → TellsAll index.now items → in_order items item.now ≡ true → takes_so items item.now ≡ true
            → Follows self.old items → Follows self.new (items ++ item.now ∷ [])) }
    {
        match item {
            Item::Taken {
                proxy,
                ticket,
                item: message,
            } => match watch_of(index.asked_as(*proxy, *ticket)) {
                Some(ask) => {
                    let start = index.life_start(*proxy);
                    Ok(self.take(start, index.count(), *proxy, *ticket, ask, message)?)
                }
                None => Ok(()),
            },
            _ => Ok(()),
        }
    }

    /// The watch takes the message by the item of this place, where the life of its proxy begins at this start.
    fn take(
        &mut self,
        start: u64,
        place: u64,
        proxy: u64,
        ticket: u64,
        ask: &WatchAsk,
        message: &WatchItem,
    ) -> Result<(), NoMemory>
        ensures { OnOk result (Takes proxy ticket start place ask.now message.now self.old self.new) }
    {
        let taking = after(self.find(start, proxy, ticket), place, ask, message)?;
        self.put(proxy, ticket, taking)?;
        Ok(())
    }
}

/// The watch that is asked for, where it is one.
pub(crate) fn watch_of(request: Option<&Request>) -> Option<&WatchAsk>
    ensures { option_copied result ≡ asked_watch (option_copied request.entry) }
{
    match request {
        Some(request) => watch_in(request),
        None => None,
    }
}

fn watch_in(request: &Request) -> Option<&WatchAsk>
    ensures { option_copied result ≡ asked_watch (Some request.now) }
{
    match request {
        Request::Watch(ask) => Some(ask),
        _ => None,
    }
}

/// Where the watch stands behind a message more.
fn after(
    taking: Option<Taking>,
    place: u64,
    ask: &WatchAsk,
    message: &WatchItem,
) -> Result<Taking, NoMemory>
    ensures place { IfOk result (λ t. t.place ≡ place) }
    ensures tracks { IfOk result (λ t. (taken : Values Message) → IsTaking taking ask.now taken → Tracks t ask.now (taken ++ message.now ∷ [])) }
{
    match taking {
        Some(taking) => Ok(next_taking(taking, place, message)?),
        None => Ok(first_taking(place, ask, message)?),
    }
}

fn or_zero(start: Option<u128>) -> u128
    ensures { result ≡ zero_or start }
{
    match start {
        Some(start) => start,
        None => 0,
    }
}

fn first_taking(place: u64, ask: &WatchAsk, message: &WatchItem) -> Result<Taking, NoMemory>
    ensures place { IfOk result (λ t. t.place ≡ place) }
    ensures tracks { IfOk result (λ t. Tracks t ask.now (message.now ∷ [])) }
{
    let start = start_of(ask, &[], message);
    let from = or_zero(start);
    let spot = spot_behind(from, 0, message)?;
    Ok(Taking {
        place,
        start,
        cancelled: is_cancellation(message),
        next: after_message(from, message),
        revision: spot.0,
        count: spot.1,
    })
}

fn next_taking(taking: Taking, place: u64, message: &WatchItem) -> Result<Taking, NoMemory>
    ensures place { IfOk result (λ t. t.place ≡ place) }
    ensures tracks { IfOk result (λ t. (ask : Ask) (taken : Values Message) → Tracks taking ask taken → Tracks t ask (taken ++ message.now ∷ [])) }
{
    let spot = spot_behind(taking.revision, taking.count, message)?;
    Ok(Taking {
        place,
        start: taking.start,
        cancelled: is_ended(taking, message),
        next: after_message(taking.next, message),
        revision: spot.0,
        count: spot.1,
    })
}

/// Whether the watch took a cancellation, with the message.
fn is_ended(taking: Taking, message: &WatchItem) -> bool
    ensures { result ≡ taking.cancelled || is_cancelling message.now }
{
    taking.cancelled || is_cancellation(message)
}

/// Where a watch stands behind the events of the message.
fn spot_behind(revision: u128, count: u64, message: &WatchItem) -> Result<(u128, u64), NoMemory>
    ensures { IfOk result (λ spot. spot ≡ spot_after (revision, count) (item_events message.now)) }
{
    match message {
        WatchItem::Events { events, .. } => {
            Ok(spot_behind_events(revision, count, events.as_slice())?)
        }
        _ => Ok((revision, count)),
    }
}

fn spot_behind_events(revision: u128, count: u64, events: &[Event]) -> Result<(u128, u64), NoMemory>
    ensures { IfOk result (λ spot. spot ≡ spot_after (revision, count) events.now) }
{
    let mut spot = (revision, count);
    for event in events {
        spot = next_spot(spot.0, spot.1, event_revision(event))?;
    }
    Ok(spot)
}

fn next_spot(revision: u128, count: u64, next: u64) -> Result<(u128, u64), NoMemory>
    ensures { IfOk result (λ spot. spot ≡ spot_next (revision, count) next) }
{
    if u128::from(next) != revision {
        return Ok((u128::from(next), 1));
    }
    if count == LAST_COUNT {
        return Err(NoMemory);
    }
    Ok((revision, count + 1))
}
