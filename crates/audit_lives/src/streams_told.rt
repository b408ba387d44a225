ghost use Rattle.std.specs.Prelude.{◌≡◌, ◌<◌, ◌||◌, ◌^◌, ◌++◌, ◌∷◌, [], List as Listed, length, is_some, OnOk};
ghost use Rattle.audit_lives.specs.Index.{TellsStreams};
ghost use Rattle.script_text.specs.declared.item.Item.{Item as Told};
ghost use Rattle.std.specs.List.{list_any};
ghost use Rattle.audit_model.specs.Takes.{pushes_cancellation as names_compaction};
ghost use Rattle.audit_model.specs.Streams.{has_cancelled as has_cancel, has_ended as has_end, opener_of as first_opener};
ghost use Rattle.std.specs.Option.{option_map};
ghost use Rattle.audit_lives.specs.Given.{message_revision};
ghost use Rattle.audit_lives.specs.Keeps.{keeps};
ghost use Rattle.world_model.specs.Received.{or_zero};
ghost use Rattle.audit_lives.specs.Finds.{opened_again};
ghost use Rattle.audit_lives.specs.Messages.{Sets, next_key};
ghost use Rattle.first_places.specs.Places.{value_at};
ghost use Rattle.world_model.specs.Lives.{next_message};

use crate::calls_told::{counted, or_zero};
use crate::kept::{Kept, message_by, opener_by};
use crate::pairs::{cancelled, compacted, delivered, ended, opened, pushed};
use crate::streams::is_opening;
use etcd_types::NoMemory;
use first_places::{Places, Values};
use script_text::Item;
use std::alloc::Global;

/// Where items tell what is looked up of streams.
#[derive(Drop)]
pub(crate) struct StreamsTold {
    /// No start: all items are looked at.
    pub(crate) none: Values,
    pub(crate) opened: Places,
    pub(crate) ended: Places,
    pub(crate) cancelled: Places,
    /// Where a cancellation was pushed, by the compaction revision that it names.
    pub(crate) compacted: Places,
    /// How many streams were opened.
    pub(crate) count: u64,
    /// How many messages were pushed into each stream.
    pub(crate) pushed: Values,
    /// How many of them were delivered.
    pub(crate) delivered: Values,
    /// Where each message is told, by its stream and its number there, from 0.
    pub(crate) messages: Places,
    /// Whether a stream's number was opened twice.
    pub(crate) doubled: bool,
}

impl StreamsTold {
    /// Of no items. It takes no memory.
    pub(crate) fn new(alloc: Global) -> StreamsTold
        ensures { TellsStreams result [] }
    {
        StreamsTold {
            none: Values::new(alloc),
            opened: Places::new(alloc),
            ended: Places::new(alloc),
            cancelled: Places::new(alloc),
            compacted: Places::new(alloc),
            count: 0,
            pushed: Values::new(alloc),
            delivered: Values::new(alloc),
            messages: Places::new(alloc),
            doubled: false,
        }
    }

    /// The proxy that opened the stream.
    pub(crate) fn opener_of(&self, stream: u64, kept: &[Kept]) -> Option<u64>
        ensures { (items : Listed Told) → kept.now ≡ keeps items → TellsStreams self.now items → result ≡ first_opener stream items }
    {
        opener_by(stream, kept, self.opened.first(&self.none, 0, stream))
    }

    /// The revision of the header of the stream's message that is delivered next, or 0.
    pub(crate) fn message_revision(&self, stream: u64, kept: &[Kept]) -> u64
        ensures { (items : Listed Told) → kept.now ≡ keeps items → TellsStreams self.now items → result ≡ or_zero (option_map message_revision (next_message stream items)) }
    {
        let place = self.messages.of(stream, self.delivered.of(stream));
        or_zero(message_by(stream, kept, place))
    }

    /// Whether the item opens a stream that was opened before.
    fn is_again(&self, item: &Item) -> bool
        ensures { (items : Listed Told) → TellsStreams self.now items → result ≡ opened_again items item.now }
    {
        match item {
            Item::Opened { stream, .. } => self.opened.is_told(&self.none, 0, *stream),
            _ => false,
        }
    }

    /// Whether a stream was opened twice, with this item.
    fn is_doubled(&self, item: &Item) -> bool
        ensures { (items : Listed Told) → TellsStreams self.now items → result ≡ (self.now.doubled || opened_again items item.now) }
    {
        self.doubled || self.is_again(item)
    }

    /// Whether the stream was cut or closed.
    pub(crate) fn has_ended(&self, stream: u64) -> bool
        ensures { (items : Listed Told) → TellsStreams self.now items → result ≡ has_end stream items }
    {
        self.ended.is_told(&self.none, 0, stream)
    }

    /// Whether a cancellation was pushed into the stream.
    pub(crate) fn has_cancelled(&self, stream: u64) -> bool
        ensures { (items : Listed Told) → TellsStreams self.now items → result ≡ has_cancel stream items }
    {
        self.cancelled.is_told(&self.none, 0, stream)
    }

    /// Whether a message that was pushed into the stream isn't delivered.
    pub(crate) fn has_next(&self, stream: u64) -> bool
        ensures { (items : Listed Told) → TellsStreams self.now items → result ≡ is_some (next_message stream items) }
    {
        self.delivered.of(stream) < self.pushed.of(stream)
    }

    /// Whether a cancellation was pushed that names this compaction revision.
    pub(crate) fn has_cancelled_at(&self, compaction: u64) -> bool
        ensures { (items : Listed Told) → TellsStreams self.now items → result ≡ list_any (names_compaction compaction) items }
    {
        self.compacted.is_told(&self.none, 0, compaction)
    }

    /// With the next item, which has this place.
    pub(crate) fn take(&mut self, item: &Item, place: u64) -> Result<(), NoMemory>
        requires { place < 2 ^ 63 }
        ensures { OnOk result ((items : Listed Told) → place ≡ length items → TellsStreams self.old items → TellsStreams self.new (items ++ item.now ∷ [])) }
    {
        self.doubled = self.is_doubled(item);
        self.opened.tell(opened(item), &self.none, place)?;
        self.ended.tell(ended(item), &self.none, place)?;
        self.cancelled.tell(cancelled(item), &self.none, place)?;
        self.compacted.tell(compacted(item), &self.none, place)?;
        self.count = counted(self.count, is_opening(item));
        set_message(&mut self.messages, &self.pushed, pushed(item), place)?;
        self.pushed.count(pushed(item))?;
        self.delivered.count(delivered(item))?;
        Ok(())
    }
}

/// Keeps the place of a stream's next message, where there is a stream.
fn set_message(
    messages: &mut Places,
    counts: &Values,
    stream: Option<u64>,
    place: u64,
) -> Result<(), NoMemory>
    ensures { OnOk result (Sets (next_key stream (value_at counts.now)) place messages.old messages.new) }
{
    match stream {
        Some(stream) => Ok(messages.put(stream, counts.of(stream), place)?),
        None => Ok(()),
    }
}
