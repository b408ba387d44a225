ghost use Rattle.std.specs.Prelude.{◌≡◌, ◌<◌, ◌||◌, ◌^◌, ◌++◌, ◌∷◌, ◌+◌, [], List as Listed, length, is_some, min, if◌then◌else◌, OnOk};
ghost use Rattle.std.specs.Option.{option_copied, option_map};
ghost use Rattle.audit_lives.specs.Finds.{sent_again};
ghost use Rattle.audit_lives.specs.Given.{reply_revision};
ghost use Rattle.audit_lives.specs.Index.{TellsCalls};
ghost use Rattle.audit_lives.specs.Keeps.{keeps};
ghost use Rattle.audit_lives.specs.Orders.{places_behind};
ghost use Rattle.world_model.specs.Answers.{seen, sent_call};
ghost use Rattle.world_model.specs.Places.{nth};
ghost use Rattle.world_model.specs.Received.{or_zero};
ghost use Rattle.script_text.specs.declared.item.Item.{Item as Told};
ghost use Rattle.audit_model.specs.Calls.{is_settled as has_end, sender_of as first_sender};
ghost use Rattle.world_model.specs.Lives.{executed_to as first_answer};

use crate::calls::is_sending;
use crate::kept::{Kept, answer_by, call_by, sender_by};
use crate::pairs::{executed, sent, settled};
use etcd_types::{List, NoMemory, Request};
use first_places::{Places, Values};
use script_text::Item;
use std::alloc::Global;

/// Where items tell what is looked up of calls.
#[derive(Drop)]
pub(crate) struct CallsTold {
    alloc: Global,
    /// No start: all items are looked at.
    pub(crate) none: Values,
    pub(crate) sent: Places,
    pub(crate) executed: Places,
    pub(crate) settled: Places,
    /// How many calls were sent.
    pub(crate) count: u64,
    /// Whether a call's number was sent twice.
    pub(crate) doubled: bool,
    /// Where each call is told, in the order of their numbers, from 1.
    pub(crate) order: List<u64>,
}

impl CallsTold {
    /// Of no items. It takes no memory.
    pub(crate) fn new(alloc: Global) -> CallsTold
        ensures { TellsCalls result [] }
    {
        CallsTold {
            alloc,
            none: Values::new(alloc),
            sent: Places::new(alloc),
            executed: Places::new(alloc),
            settled: Places::new(alloc),
            count: 0,
            doubled: false,
            order: List::new(alloc),
        }
    }

    /// The proxy that sent the call.
    pub(crate) fn sender_of(&self, call: u64, kept: &[Kept]) -> Option<u64>
        ensures { (items : Listed Told) → kept.now ≡ keeps items → TellsCalls self.now items → result ≡ first_sender call items }
    {
        sender_by(call, kept, self.sent.first(&self.none, 0, call))
    }

    /// Whether the call was executed.
    pub(crate) fn is_executed(&self, call: u64) -> bool
        ensures { (items : Listed Told) → TellsCalls self.now items → result ≡ is_some (first_answer call items) }
    {
        self.executed.is_told(&self.none, 0, call)
    }

    /// The revision of the header of what the store answered to the call, or 0.
    pub(crate) fn answer_revision(&self, call: u64, kept: &[Kept]) -> u64
        ensures { (items : Listed Told) → kept.now ≡ keeps items → TellsCalls self.now items → result ≡ or_zero (option_map reply_revision (first_answer call items)) }
    {
        or_zero(answer_by(call, kept, self.executed.first(&self.none, 0, call)))
    }

    /// The member and the request of the call of this number.
    pub(crate) fn sent_call<'a>(&self, call: u64, kept: &'a [Kept]) -> Option<&'a (u64, Request)>
        ensures { (items : Listed Told) → kept.now ≡ keeps items → TellsCalls self.now items → option_copied result ≡ sent_call (seen items) call }
    {
        call_by(kept, self.place_of(call))
    }

    /// Where the call of this number is told.
    fn place_of(&self, call: u64) -> Option<u64>
        ensures { result ≡ nth self.now.order call }
    {
        if call == 0 {
            return None;
        }
        self.order.as_slice().get((call - 1) as usize).copied()
    }

    /// Whether the call was answered or lost.
    pub(crate) fn is_settled(&self, call: u64) -> bool
        ensures { (items : Listed Told) → TellsCalls self.now items → result ≡ has_end call items }
    {
        self.settled.is_told(&self.none, 0, call)
    }

    /// Whether the item sends a call that was sent before.
    fn is_again(&self, item: &Item) -> bool
        ensures { (items : Listed Told) → TellsCalls self.now items → result ≡ sent_again items item.now }
    {
        match item {
            Item::Sent { call, .. } => self.sent.is_told(&self.none, 0, *call),
            _ => false,
        }
    }

    /// Whether a call was sent twice, with this item.
    fn is_doubled(&self, item: &Item) -> bool
        ensures { (items : Listed Told) → TellsCalls self.now items → result ≡ (self.now.doubled || sent_again items item.now) }
    {
        self.doubled || self.is_again(item)
    }

    /// With the next item, which has this place.
    pub(crate) fn take(&mut self, item: &Item, place: u64) -> Result<(), NoMemory>
        requires { place < 2 ^ 63 }
        ensures { OnOk result ((items : Listed Told) → place ≡ length items → TellsCalls self.old items → TellsCalls self.new (items ++ item.now ∷ [])) }
    {
        self.doubled = self.is_doubled(item);
        self.sent.tell(sent(item), &self.none, place)?;
        self.executed.tell(executed(item), &self.none, place)?;
        self.settled.tell(settled(item), &self.none, place)?;
        self.count = counted(self.count, is_sending(item));
        put_call(self.alloc, &mut self.order, item, place)?;
        Ok(())
    }
}

/// Keeps the place of a call that is sent. A world begins anew.
fn put_call(alloc: Global, order: &mut List<u64>, item: &Item, place: u64) -> Result<(), NoMemory>
    ensures { OnOk result (order.new ≡ places_behind order.old place item.now) }
{
    match item {
        Item::World { .. } => {
            *order = List::new(alloc);
            Ok(())
        }
        Item::Sent { .. } => Ok(order.push(place)?),
        _ => Ok(()),
    }
}

/// The number, or 0 where there is none.
pub(crate) fn or_zero(number: Option<u64>) -> u64
    ensures { result ≡ or_zero number }
{
    match number {
        Some(number) => number,
        None => 0,
    }
}

/// One more where it is one, as far as 64 bits can count.
pub(crate) fn counted(count: u64, is_one: bool) -> u64
    ensures { result ≡ (if is_one then min (count + 1) 0xffff_ffff_ffff_ffff else count) }
{
    if is_one {
        count.saturating_add(1)
    } else {
        count
    }
}
