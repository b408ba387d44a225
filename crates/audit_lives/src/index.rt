ghost use Rattle.std.specs.Prelude.{◌≡◌, ◌<◌, ℕ, true, ◌++◌, ◌∷◌, [], List as Values, length, IfOk, OnOk};
ghost use Rattle.audit_model.specs.Calls.{sender_of as first_sender};
ghost use Rattle.audit_model.specs.Streams.{opener_of as first_opener};
ghost use Rattle.std.specs.List.{list_any};
ghost use Rattle.audit_model.specs.Takes.{pushes_cancellation};
ghost use Rattle.audit_model.specs.Summaries.{summary as summary_of};
ghost use Rattle.first_places.specs.Places.{is_number};
ghost use Rattle.audit_lives.specs.Index.{TellsAll, TellsNext, life_start as start_of_life};
ghost use Rattle.std.specs.Option.{option_copied, option_map};
ghost use Rattle.audit_lives.specs.Given.{message_revision, reply_revision};
ghost use Rattle.audit_model.specs.Order.{is_member as is_of_members};
ghost use Rattle.world_model.specs.Answers.{seen, sent_call};
ghost use Rattle.world_model.specs.Received.{or_zero};
ghost use Rattle.world_model.specs.Lives.{asked_as as first_asked, clock_of as last_clock, executed_to as first_answer, is_named as has_call, life as last_life, namespace_of, next_message, opened_it, sent_it};
ghost use Rattle.script_text.specs.declared.item.Item.{Item as Told};

use crate::calls_told::CallsTold;
use crate::kept::{Kept, keep};
use crate::lives::{is_member, namespace_of};
use crate::lives_told::LivesTold;
use crate::streams_told::StreamsTold;
use crate::sums::Sums;
use audit_model::Summary;
use etcd_types::{Bytes, List, NoMemory, Request};
use script_text::Item;
use std::alloc::Global;

/// More items than this are not kept.
const MOST_ITEMS: u64 = 0x7fff_ffff_ffff_ffff;

/// Where the items of a transcript tell what is looked up for the next one, so that they aren't looked through; and what is kept of them.
#[derive(Drop)]
pub struct Index {
    alloc: Global,
    pub(crate) count: u64,
    pub(crate) kept: List<Kept>,
    pub(crate) lives: LivesTold,
    pub(crate) calls: CallsTold,
    pub(crate) streams: StreamsTold,
    pub(crate) sums: Sums,
}

impl Index {
    /// Of no items. It takes no memory.
    pub fn new(alloc: Global) -> Index
        ensures { TellsAll result [] }
    {
        Index {
            alloc,
            count: 0,
            kept: List::new(alloc),
            lives: LivesTold::new(alloc),
            calls: CallsTold::new(alloc),
            streams: StreamsTold::new(alloc),
            sums: Sums::new(alloc),
        }
    }

    /// What was asked at the proxy under this ticket, in its life.
    pub fn asked_as(&self, proxy: u64, ticket: u64) -> Option<&Request>
        ensures { (items : Values Told) → TellsAll self.now items → option_copied result ≡ first_asked proxy ticket (last_life proxy items) }
    {
        self.lives.asked_as(proxy, ticket, self.kept.as_slice())
    }

    /// Whether a call of the proxy's life names the ticket.
    pub fn is_named(&self, proxy: u64, ticket: u64) -> bool
        ensures { (items : Values Told) → TellsAll self.now items → result ≡ has_call proxy ticket (last_life proxy items) }
    {
        self.lives.is_named(proxy, ticket)
    }

    /// The proxy that sent the call.
    pub fn sender_of(&self, call: u64) -> Option<u64>
        ensures { (items : Values Told) → TellsAll self.now items → result ≡ first_sender call items }
    {
        self.calls.sender_of(call, self.kept.as_slice())
    }

    /// The proxy that opened the stream.
    pub fn opener_of(&self, stream: u64) -> Option<u64>
        ensures { (items : Values Told) → TellsAll self.now items → result ≡ first_opener stream items }
    {
        self.streams.opener_of(stream, self.kept.as_slice())
    }

    /// Whether no stream's number was opened twice, so that each stream has one opener.
    pub fn has_single_openers(&self) -> bool
        ensures { (items : Values Told) → TellsAll self.now items → result ≡ true → (k p : ℕ) → opened_it p k items ≡ is_number (first_opener k items) p }
    {
        !self.streams.doubled
    }

    /// Whether a cancellation was pushed into a stream that names this compaction revision.
    pub fn has_cancelled_at(&self, compaction: u64) -> bool
        ensures { (items : Values Told) → TellsAll self.now items → result ≡ list_any (pushes_cancellation compaction) items }
    {
        self.streams.has_cancelled_at(compaction)
    }

    /// The revision of the header of the stream's message that is delivered next, or 0.
    pub fn message_revision(&self, stream: u64) -> u64
        ensures { (items : Values Told) → TellsAll self.now items → result ≡ or_zero (option_map message_revision (next_message stream items)) }
    {
        self.streams.message_revision(stream, self.kept.as_slice())
    }

    /// Whether no call's number was sent twice, so that each call has one sender.
    pub fn has_single_senders(&self) -> bool
        ensures { (items : Values Told) → TellsAll self.now items → result ≡ true → (k p : ℕ) → sent_it p k items ≡ is_number (first_sender k items) p }
    {
        !self.calls.doubled
    }

    /// The revision of the header of what the store answered to the call, or 0.
    pub fn answer_revision(&self, call: u64) -> u64
        ensures { (items : Values Told) → TellsAll self.now items → result ≡ or_zero (option_map reply_revision (first_answer call items)) }
    {
        self.calls.answer_revision(call, self.kept.as_slice())
    }

    /// The member and the request of the call of this number.
    pub fn sent_call(&self, call: u64) -> Option<&(u64, Request)>
        ensures { (items : Values Told) → TellsAll self.now items → option_copied result ≡ sent_call (seen items) call }
    {
        self.calls.sent_call(call, self.kept.as_slice())
    }

    /// Whether the world has a member of this number.
    pub(crate) fn has_member(&self, member: u64) -> bool
        ensures { (items : Values Told) → TellsAll self.now items → result ≡ is_of_members items member }
    {
        is_member(self.kept.as_slice(), member)
    }

    /// The namespace of the world, or none where there is no world.
    pub fn namespace(&self, alloc: Global) -> Result<Bytes, NoMemory>
        ensures { IfOk result (λ namespace. (items : Values Told) → TellsAll self.now items → namespace ≡ namespace_of items) }
    {
        Ok(namespace_of(alloc, self.kept.as_slice())?)
    }

    /// The reading that the proxy's clock was set to last, in milliseconds, or 0.
    pub fn clock_of(&self, proxy: u64) -> u64
        ensures { (items : Values Told) → TellsAll self.now items → result ≡ last_clock proxy items }
    {
        self.lives.clock_of(proxy)
    }

    /// How many items stand before the life that the proxy has now.
    pub fn life_start(&self, proxy: u64) -> u64
        ensures { (items : Values Told) → TellsAll self.now items → result ≡ start_of_life proxy items }
    {
        self.lives.starts.of(proxy)
    }

    /// How many items there are.
    pub fn count(&self) -> u64
        ensures { (items : Values Told) → TellsAll self.now items → result ≡ length items }
    {
        self.count
    }

    /// What is reported of the items.
    pub fn summary(&self) -> Summary
        ensures { (items : Values Told) → TellsAll self.now items → result ≡ summary_of items }
    {
        Summary {
            items: self.count,
            unsent: self.sums.unsent,
            watches: self.sums.watches,
        }
    }

    /// With the next item.
    pub fn take(&mut self, item: Item) -> Result<(), NoMemory>
        ensures { OnOk result ((items : Values Told) → TellsAll self.old items → TellsAll self.new (items ++ item ∷ [])) }
    {
        // What owns an item is dear to prove over each way out: others borrow it.
        self.note(&item)?;
        let kept = keep(self.alloc, item)?;
        self.kept.push(kept)?;
        self.count += 1;
        Ok(())
    }

    /// Notes what the next item tells, but for itself.
    fn note(&mut self, item: &Item) -> Result<(), NoMemory>
        ensures told { OnOk result ((items : Values Told) → TellsAll self.old items → TellsNext self.new items item.now) }
        ensures few { OnOk result (self.new.count < MOST_ITEMS) }
    {
        if self.count >= MOST_ITEMS {
            return Err(NoMemory);
        }
        self.sums
            .follow(&self.lives, self.kept.as_slice(), item, self.count)?;
        self.lives.take(item, self.count)?;
        self.calls.take(item, self.count)?;
        self.streams.take(item, self.count)?;
        Ok(())
    }
}
