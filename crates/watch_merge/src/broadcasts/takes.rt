ghost use Rattle.std.specs.Prelude.{◌≡◌, ◌<◌, ◌^◌, false, drop, length, get_or, Some, IfOk, IfErr, OnErr};
ghost use Rattle.watch_model.specs.State.{Watch};
ghost use Rattle.watch_model.specs.Lookups.{watch_at};
ghost use Rattle.watch_model.specs.Queues.{is_nil};
ghost use Rattle.watch_model.specs.Joining.{seated_as};
ghost use Rattle.watch_model.specs.Takes.{taken, taken_from, with_watch};
ghost use Rattle.watch_merge.specs.Faults.{IsWatchFault};
ghost use Rattle.watch_merge.specs.Taking.{taken_to, opened_for};

use super::Broadcasts;
use crate::fault::WatchFault;
use crate::watches::{drop_watch, ends, index_of, joins_again, take_into};
use etcd_types::{Header, NoMemory};
use told_items::Told;
use watch_model::WatchPlace;
use watch_queue::{take_and_seat, take_item};
use watch_streams::{next_of, open};

impl Broadcasts {
    /// The first item of a watch's queue, which is taken, or none exactly where the queue is empty. A watch that was split
    /// off joins a stream again with its last item; one that took its cancellation isn't known any more.
    ///
    /// Where memory was wanting all is as before.
    pub fn take(&mut self, ticket: u64, last: Header) -> Result<Option<Told>, WatchFault>
        requires numbers { self.old.given < 2 ^ 63 }
        ensures ok { IfOk result (λ item. taken self.old last (watch_at ticket self.old.watches) ≡ Some (self.new, item)) }
        ensures err { OnErr result (self.new ≡ self.old) }
        ensures unknown { IfErr result (IsWatchFault ticket (watch_at ticket self.old.watches)) }
    {
        let at = match index_of(ticket, &self.watches) {
            None => return Err(WatchFault::NoSuchWatch(ticket)),
            Some(at) => at,
        };
        Ok(self.take_at(at, last)?)
    }

    fn take_at(&mut self, at: usize, last: Header) -> Result<Option<Told>, NoMemory>
        requires bound { at < length self.old.watches }
        requires numbers { self.old.given < 2 ^ 63 }
        ensures ok { IfOk result (λ item. (w : Watch) → w ≡ get_or self.old.watches at w → taken_from self.old last w w.queue ≡ (self.new, item)) }
        ensures err { OnErr result (self.new ≡ self.old) }
    {
        let watch = &self.watches[at];
        if watch.queue.is_empty() {
            return Ok(None);
        }
        if !joins_again(watch) {
            return self.take_only(at);
        }
        self.index.build(&self.streams);
        let found = match self
            .index
            .stream_to_join(&self.streams, &watch.ask.range, watch.next, last.revision)
        {
            None => return self.take_and_open(at),
            Some(found) => found,
        };
        let number = found.number;
        let next = next_of(found);
        let created = found.stream.is_created();
        self.take_and_join(at, number, next, created, last)
    }

    /// The watch stays where it is.
    fn take_only(&mut self, at: usize) -> Result<Option<Told>, NoMemory>
        requires bound { at < length self.old.watches }
        requires some { (w : Watch) → w ≡ get_or self.old.watches at w → is_nil w.queue ≡ false }
        ensures ok { IfOk result (λ item. (w : Watch) → w ≡ get_or self.old.watches at w
            → taken_to self.old w w.queue
            (with_watch self.old (record w { queue = drop 1 w.queue })) ≡ (self.new, item)) }
        ensures err { OnErr result (self.new ≡ self.old) }
    {
        let ticket = self.watches[at].ticket;
        let item = take_item(&mut self.watches[at])?;
        if ends(&item) {
            drop_watch(ticket, &mut self.watches);
            return Ok(item);
        }
        Ok(item)
    }

    /// The watch joins a stream of this number and next.
    fn take_and_join(
        &mut self,
        at: usize,
        number: u64,
        next: u64,
        created: bool,
        last: Header,
    ) -> Result<Option<Told>, NoMemory>
        requires bound { at < length self.old.watches }
        requires some { (w : Watch) → w ≡ get_or self.old.watches at w → is_nil w.queue ≡ false }
        ensures ok { IfOk result (λ item. (w : Watch) → w ≡ get_or self.old.watches at w
            → taken_to self.old w w.queue (with_watch self.old
            (seated_as last number next created (record w { queue = drop 1 w.queue })))
            ≡ (self.new, item)) }
        ensures err { OnErr result (self.new ≡ self.old) }
    {
        let ticket = self.watches[at].ticket;
        let item = take_and_seat(number, next, created, last, &mut self.watches[at])?;
        if ends(&item) {
            drop_watch(ticket, &mut self.watches);
            return Ok(item);
        }
        Ok(item)
    }

    /// A stream is due for the watch.
    fn take_and_open(&mut self, at: usize) -> Result<Option<Told>, NoMemory>
        requires bound { at < length self.old.watches }
        requires some { (w : Watch) → w ≡ get_or self.old.watches at w → is_nil w.queue ≡ false }
        requires numbers { self.old.given < 2 ^ 63 }
        ensures ok { IfOk result (λ item. (w : Watch) → w ≡ get_or self.old.watches at w
            → taken_to self.old w w.queue
            (opened_for self.old (record w { queue = drop 1 w.queue })) ≡ (self.new, item)) }
        ensures err { OnErr result (self.new ≡ self.old) }
    {
        self.streams.reserve(1)?;
        let watch = &self.watches[at];
        let ticket = watch.ticket;
        let next = watch.next;
        let range = watch.ask.range.copy(self.alloc)?;
        let number = self.given + 1;
        let item = take_into(WatchPlace::In(number), &mut self.watches[at])?;
        if ends(&item) {
            drop_watch(ticket, &mut self.watches);
            return Ok(item);
        }
        self.index.opened(number, &range);
        open(number, self.step, range, next, &mut self.streams);
        self.idle = false;
        self.given = number;
        Ok(item)
    }
}
