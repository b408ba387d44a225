ghost use Rattle.std.specs.Prelude.{◌≡◌, ◌<◌, ◌^◌, Some, OnOk, OnErr, IfErr};
ghost use Rattle.watch_model.specs.Lookups.{stream_at};
ghost use Rattle.watch_model.specs.Delivery.{delivered, given_events, given_progress, given_message, stands_created, on_stream};
ghost use Rattle.watch_merge.specs.Faults.{IsStreamFault};

use super::Broadcasts;
use crate::batches::{is_nil, is_told, last_revision};
use crate::fault::WatchFault;
use etcd_types::{Event, Header, List, NoMemory};
use watch_queue::{Batch, give, give_created, give_progress, has_member, is_up_to};
use watch_streams::{
    advance, copy_range, create, created_next, empty, is_awaited, is_begun, next_of, place_of,
};

impl Broadcasts {
    /// The created message of a stream came, with this header; `last` is the highest that was delivered.
    ///
    /// Where memory was wanting no watch is told so.
    pub fn created(&mut self, stream: u64, header: Header, last: Header) -> Result<(), WatchFault>
        ensures ok { OnOk result (on_stream self.old stream (λ s. stands_created self.old s header last) ≡ Some self.new) }
        ensures err { OnErr result (self.new ≡ self.old) }
        ensures unknown { IfErr result (IsStreamFault stream (stream_at stream self.old.streams)) }
    {
        let at = match place_of(stream, &self.streams) {
            None => return Err(WatchFault::NoSuchStream(stream)),
            Some(at) => at,
        };
        let found = &self.streams[at];
        if !is_awaited(found) {
            return Ok(());
        }
        let range = copy_range(self.alloc, found)?;
        let next = created_next(found, header.revision);
        give_created(stream, next, last, &mut self.watches)?;
        create(stream, header.revision, &mut self.streams);
        self.merge_equal(&range);
        Ok(())
    }

    /// A message of a stream came: a batch of events, or one without events that tells how far the stream has come.
    ///
    /// Where memory was wanting nothing is delivered.
    pub fn deliver(
        &mut self,
        stream: u64,
        header: Header,
        events: &List<Event>,
    ) -> Result<(), WatchFault>
        requires { self.old.given < 2 ^ 63 }
        ensures ok { OnOk result (delivered self.old stream header events.now ≡ Some self.new) }
        ensures err { OnErr result (self.new ≡ self.old) }
        ensures unknown { IfErr result (IsStreamFault stream (stream_at stream self.old.streams)) }
    {
        let at = match place_of(stream, &self.streams) {
            None => return Err(WatchFault::NoSuchStream(stream)),
            Some(at) => at,
        };
        let found = &self.streams[at];
        if !is_begun(found.phase) {
            return Ok(());
        }
        if !is_told(found, events) {
            self.cut(stream);
            return Ok(());
        }
        let range = copy_range(self.alloc, found)?;
        let next = next_of(found);
        self.deliver_message(stream, next, header, events)?;
        self.merge_equal(&range);
        Ok(())
    }

    fn deliver_message(
        &mut self,
        stream: u64,
        next: u64,
        header: Header,
        events: &List<Event>,
    ) -> Result<(), NoMemory>
        ensures ok { OnOk result (self.new ≡ given_message self.old stream next header events.now) }
        ensures err { OnErr result (self.new ≡ self.old) }
    {
        if is_nil(events) {
            self.deliver_progress(stream, next, header)
        } else {
            self.deliver_events(stream, next, header, events)
        }
    }

    fn deliver_progress(&mut self, stream: u64, next: u64, header: Header) -> Result<(), NoMemory>
        ensures ok { OnOk result (self.new ≡ given_progress self.old stream next header) }
        ensures err { OnErr result (self.new ≡ self.old) }
    {
        if is_up_to(next, header.revision) {
            give_progress(stream, next, header, &mut self.watches)?;
            advance(stream, header.revision, &mut self.streams);
        }
        Ok(())
    }

    fn deliver_events(
        &mut self,
        stream: u64,
        next: u64,
        header: Header,
        events: &List<Event>,
    ) -> Result<(), NoMemory>
        ensures ok { OnOk result (self.new ≡ given_events self.old stream next header events.now) }
        ensures err { OnErr result (self.new ≡ self.old) }
    {
        let batch = Batch::new(self.alloc, events)?;
        give(self.alloc, stream, next, header, &batch, &mut self.watches)?;
        advance(stream, last_revision(events), &mut self.streams);
        if !has_member(stream, &self.watches) {
            self.index.emptied(stream, &self.streams);
            self.idle = false;
            empty(stream, self.step, &mut self.streams);
        }
        Ok(())
    }
}
