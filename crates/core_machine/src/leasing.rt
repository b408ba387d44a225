ghost use Rattle.std.specs.Prelude.{◌≡◌, ◌<◌, ◌^◌, Some, None, is_some, true, OnOk, OnErr};
ghost use Rattle.core_model.specs.LeasingStream.{leasing_item, leasing_message, own_created, leasing_created, leasing_told, leasing_cancelled};
ghost use Rattle.core_model.specs.Heard.{header_taken};
ghost use Rattle.core_model.specs.State.{Opening};
ghost use Rattle.core_machine.specs.Keeping.{Kept, on};
ghost use Rattle.core_machine.specs.Leasing.{OnLeasing};

use crate::machine::Machine;
use core_parts::{
    advance_opening, create_opening, is_readable, item_header, live_number, renew_opening,
    told_revision,
};
use etcd_types::{Event, Header, List, NoMemory, WatchItem};
use namespace_keys::KeyFault;

impl Machine {
    /// A message came on the leasing stream. One that can't be read breaks it off; one of a stream that is still to be opened tells
    /// nothing but its header. Where memory was wanting all is as before.
    pub(crate) fn hear_leasing(&mut self, item: WatchItem, now: u64) -> Result<(), NoMemory>
        requires given { self.old.core.watches.given < 2 ^ 63 }
        requires leasing { is_some self.old.core.leasing ≡ true }
        ensures ok { OnOk result (OnLeasing self.old (λ o c. leasing_item now o item c) self.new) }
        ensures err { OnErr result (self.new ≡ self.old) }
    {
        let delivered = item_header(&item);
        if self.is_to_be_opened() {
            self.take_header(delivered);
            return Ok(());
        }
        match self.namespace.unwrap_item(self.alloc, item) {
            Ok(item) => {
                self.hear_message(&item, now)?;
                self.take_header(delivered);
                Ok(())
            }
            Err(KeyFault::ForeignKey(_)) => {
                self.take_header(delivered);
                self.cut_leasing();
                Ok(())
            }
            Err(KeyFault::NoMemory) => Err(NoMemory),
        }
    }

    /// Whether the opening of the leasing stream wasn't sent yet.
    fn is_to_be_opened(&self) -> bool
        requires { is_some self.now.core.leasing ≡ true }
        ensures { (o : Opening) → self.now.core.leasing ≡ Some o → result ≡ is_some o.due }
    {
        match &self.leasing {
            Some(opening) => opening.due.is_some(),
            None => unreachable!(),
        }
    }

    /// What this message of the leasing stream tells, but for its header. Where memory was wanting all is as before.
    fn hear_message(&mut self, item: &WatchItem, now: u64) -> Result<(), NoMemory>
        requires given { self.old.core.watches.given < 2 ^ 63 }
        requires leasing { is_some self.old.core.leasing ≡ true }
        ensures ok { OnOk result (OnLeasing self.old (λ o c. leasing_message now o item.now c) self.new) }
        ensures err { OnErr result (self.new ≡ self.old) }
    {
        match item {
            WatchItem::Created(header) => {
                self.begin_leasing(*header);
                Ok(())
            }
            WatchItem::Events { header, events } => self.tell_leasing(*header, events, now),
            WatchItem::Canceled { compact, .. } => {
                self.cancel_leasing(*compact);
                Ok(())
            }
        }
    }

    /// The created message of the leasing stream came; another one does nothing.
    fn begin_leasing(&mut self, header: Header)
        requires { is_some self.old.core.leasing ≡ true }
        ensures { OnLeasing self.old (λ o c. leasing_created o header c) self.new }
    {
        let Some(opening) = &self.leasing else {
            unreachable!();
        };
        if opening.stream.is_created() {
            return;
        }
        let next = opening.stream.reopen().1;
        self.resync_from(next);
        create_opening(&mut self.leasing, header.revision);
    }

    /// A stream that was opened from 0 can't tell what became of the ownership keys before.
    fn resync_from(&mut self, next: u64)
        ensures { self.new ≡ on self.old (record self.old.core { own = own_created next self.old.core.own }) }
    {
        if next == 0 {
            self.reads.resync();
        }
    }

    /// A batch of events of ownership keys came, or one without events that tells how far the stream has come.
    fn tell_leasing(
        &mut self,
        header: Header,
        events: &List<Event>,
        now: u64,
    ) -> Result<(), NoMemory>
        requires given { self.old.core.watches.given < 2 ^ 63 }
        requires leasing { is_some self.old.core.leasing ≡ true }
        ensures ok { OnOk result (OnLeasing self.old (λ o c. leasing_told now o header events.now c) self.new) }
        ensures err { OnErr result (self.new ≡ self.old) }
    {
        let Some(opening) = &self.leasing else {
            unreachable!();
        };
        if !is_readable(&opening.stream, events) {
            self.cut_leasing();
            return Ok(());
        }
        self.reads.notice(events, live_number(&self.seat, now))?;
        advance_opening(&mut self.leasing, told_revision(header, events));
        Ok(())
    }

    /// The leasing stream was cancelled: with a compaction it can't tell what became of the ownership keys, so all are given up and
    /// it begins anew; without one it is cut.
    fn cancel_leasing(&mut self, compact: u64)
        requires given { self.old.core.watches.given < 2 ^ 63 }
        requires leasing { is_some self.old.core.leasing ≡ true }
        ensures { OnLeasing self.old (λ o c. leasing_cancelled o compact c) self.new }
    {
        if compact == 0 {
            self.cut_leasing();
            return;
        }
        self.reads.give_all_up();
        let number = self.watches.take_number();
        let step = self.reads.step();
        renew_opening(&mut self.leasing, number, step);
    }
}
