ghost use Rattle.std.specs.Prelude.{◌≡◌, ◌<◌, ◌^◌, ◌+◌, ◌++◌, ◌∷◌, ℕ, [], List as Listed, length, is_some, if◌then◌else◌, OnOk};
ghost use Rattle.audit_lives.specs.Index.{TellsLives};
ghost use Rattle.audit_lives.specs.Keeps.{keeps};
ghost use Rattle.first_places.specs.Places.{value_at};
ghost use Rattle.script_text.specs.declared.item.Item.{Item as Told};
ghost use Rattle.audit_model.specs.Order.{has_started as is_started, is_given_ticket as is_given, is_replied as has_reply};
ghost use Rattle.std.specs.Option.{option_copied};
ghost use Rattle.world_model.specs.Lives.{asked_as as first_asked, begins, clock_by, clock_of as last_clock, is_named as has_call, life as last_life, opened_it as has_opened, sent_it as has_sent};

use crate::kept::{Kept, request_by};
use crate::pairs::{asked, given, named, opened_own, replied, sent_own};
use etcd_types::{NoMemory, Request};
use first_places::{Places, Values};
use script_text::Item;
use std::alloc::Global;

/// Where items tell what is looked up in the life of a proxy.
#[derive(Drop)]
pub(crate) struct LivesTold {
    /// The place at which each proxy's life begins, or 0 where it wasn't started.
    pub(crate) starts: Values,
    /// The reading of each proxy's clock, in milliseconds.
    pub(crate) clocks: Values,
    pub(crate) asked: Places,
    pub(crate) given: Places,
    pub(crate) replied: Places,
    pub(crate) named: Places,
    pub(crate) sent: Places,
    pub(crate) opened: Places,
}

impl LivesTold {
    /// Of no items. It takes no memory.
    pub(crate) fn new(alloc: Global) -> LivesTold
        ensures { TellsLives result [] }
    {
        LivesTold {
            starts: Values::new(alloc),
            clocks: Values::new(alloc),
            asked: Places::new(alloc),
            given: Places::new(alloc),
            replied: Places::new(alloc),
            named: Places::new(alloc),
            sent: Places::new(alloc),
            opened: Places::new(alloc),
        }
    }

    /// Whether the proxy was started.
    pub(crate) fn has_started(&self, proxy: u64) -> bool
        ensures { (items : Listed Told) → TellsLives self.now items → result ≡ is_started proxy items }
    {
        0 < self.starts.of(proxy)
    }

    /// The reading that the proxy's clock was set to last, in milliseconds, or 0.
    pub(crate) fn clock_of(&self, proxy: u64) -> u64
        ensures { (items : Listed Told) → TellsLives self.now items → result ≡ last_clock proxy items }
    {
        self.clocks.of(proxy)
    }

    /// Whether something was asked under the ticket.
    pub(crate) fn is_asked(&self, proxy: u64, ticket: u64) -> bool
        ensures { (items : Listed Told) → TellsLives self.now items → result ≡ is_some (first_asked proxy ticket (last_life proxy items)) }
    {
        self.asked.is_told(&self.starts, proxy, ticket)
    }

    /// What was asked under the ticket.
    pub(crate) fn asked_as<'a>(
        &self,
        proxy: u64,
        ticket: u64,
        kept: &'a [Kept],
    ) -> Option<&'a Request>
        ensures { (items : Listed Told) → kept.now ≡ keeps items → TellsLives self.now items → option_copied result ≡ first_asked proxy ticket (last_life proxy items) }
    {
        let place = self.asked.first(&self.starts, proxy, ticket);
        request_by(proxy, ticket, kept, place)
    }

    /// Whether the ticket was asked or posted.
    pub(crate) fn is_given_ticket(&self, proxy: u64, ticket: u64) -> bool
        ensures { (items : Listed Told) → TellsLives self.now items → result ≡ is_given proxy ticket (last_life proxy items) }
    {
        self.given.is_told(&self.starts, proxy, ticket)
    }

    /// Whether the ticket was replied.
    pub(crate) fn is_replied(&self, proxy: u64, ticket: u64) -> bool
        ensures { (items : Listed Told) → TellsLives self.now items → result ≡ has_reply proxy ticket (last_life proxy items) }
    {
        self.replied.is_told(&self.starts, proxy, ticket)
    }

    /// Whether a call of the proxy names the ticket.
    pub(crate) fn is_named(&self, proxy: u64, ticket: u64) -> bool
        ensures { (items : Listed Told) → TellsLives self.now items → result ≡ has_call proxy ticket (last_life proxy items) }
    {
        self.named.is_told(&self.starts, proxy, ticket)
    }

    /// Whether the proxy sent the call.
    pub(crate) fn sent_it(&self, proxy: u64, call: u64) -> bool
        ensures { (items : Listed Told) → TellsLives self.now items → result ≡ has_sent proxy call (last_life proxy items) }
    {
        self.sent.is_told(&self.starts, proxy, call)
    }

    /// Whether the proxy opened the stream.
    pub(crate) fn opened_it(&self, proxy: u64, stream: u64) -> bool
        ensures { (items : Listed Told) → TellsLives self.now items → result ≡ has_opened proxy stream (last_life proxy items) }
    {
        self.opened.is_told(&self.starts, proxy, stream)
    }

    /// With the next item, which has this place.
    pub(crate) fn take(&mut self, item: &Item, place: u64) -> Result<(), NoMemory>
        requires { place < 2 ^ 63 }
        ensures lives { OnOk result ((items : Listed Told) → place ≡ length items → TellsLives self.old items → TellsLives self.new (items ++ item.now ∷ [])) }
        ensures starts { OnOk result ((p : ℕ) → value_at self.new.starts p ≡ (if begins p item.now then place + 1 else value_at self.old.starts p)) }
    {
        self.asked.tell(asked(item), &self.starts, place)?;
        self.given.tell(given(item), &self.starts, place)?;
        self.replied.tell(replied(item), &self.starts, place)?;
        self.named.tell(named(item), &self.starts, place)?;
        self.sent.tell(sent_own(item), &self.starts, place)?;
        self.opened.tell(opened_own(item), &self.starts, place)?;
        set_clock(&mut self.clocks, item)?;
        begin(&mut self.starts, item, place)?;
        Ok(())
    }
}

fn set_clock(clocks: &mut Values, item: &Item) -> Result<(), NoMemory>
    ensures { OnOk result ((p : ℕ) → value_at clocks.new p ≡ clock_by p (value_at clocks.old p) item.now) }
{
    match item {
        Item::Clock { proxy, millis } => Ok(clocks.put(*proxy, *millis)?),
        _ => Ok(()),
    }
}

/// A proxy's life begins behind the item.
fn begin(starts: &mut Values, item: &Item, place: u64) -> Result<(), NoMemory>
    requires { place < 2 ^ 63 }
    ensures { OnOk result ((p : ℕ) → value_at starts.new p ≡ (if begins p item.now then place + 1 else value_at starts.old p)) }
{
    match item {
        Item::Started { proxy } => Ok(starts.put(*proxy, place + 1)?),
        Item::Restarted { proxy } => Ok(starts.put(*proxy, place + 1)?),
        _ => Ok(()),
    }
}
