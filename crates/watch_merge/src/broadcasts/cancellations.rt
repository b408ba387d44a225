ghost use Rattle.std.specs.Prelude.{◌≡◌, ◌<◌, ◌^◌, ◌==◌, ◌||◌, false, Some, OnOk, OnErr, IfErr};
ghost use Rattle.watch_model.specs.Lookups.{stream_at, without_stream};
ghost use Rattle.watch_model.specs.Delivery.{on_stream};
ghost use Rattle.watch_model.specs.Cuts.{cancelled_stream, left_as};
ghost use Rattle.watch_merge.specs.Faults.{IsStreamFault};
ghost use Rattle.watch_merge.specs.Leavings.{watches_left};

use super::Broadcasts;
use crate::fault::WatchFault;
use crate::leavers::{leave_all, seats};
use etcd_types::{Header, NoMemory};
use watch_queue::{Cancellation, ready_to_leave};
use watch_streams::{drop_stream, is_begun, next_of, place_of};

impl Broadcasts {
    /// A stream was cancelled: `compact` is the compaction revision that the message names, or 0, and `last` the highest
    /// header that was delivered. Members behind the compaction are given the cancellation, and the others join again,
    /// each at its own next. Where no compaction is named, or the stream's next isn't known yet, it is a cut.
    ///
    /// Where memory was wanting all is as before.
    pub fn cancelled(
        &mut self,
        stream: u64,
        header: Header,
        compact: u64,
        last: Header,
    ) -> Result<(), WatchFault>
        requires { self.old.given < 2 ^ 63 }
        ensures ok { OnOk result (on_stream self.old stream (λ s. cancelled_stream self.old s header compact last) ≡ Some self.new) }
        ensures err { OnErr result (self.new ≡ self.old) }
        ensures unknown { IfErr result (IsStreamFault stream (stream_at stream self.old.streams)) }
    {
        let at = match place_of(stream, &self.streams) {
            None => return Err(WatchFault::NoSuchStream(stream)),
            Some(at) => at,
        };
        let found = &self.streams[at];
        if !is_begun(found.phase) {
            return Ok(());
        }
        let next = next_of(found);
        if is_cut(compact, next) {
            self.cut(stream);
            return Ok(());
        }
        self.leave_stream(Cancellation {
            stream,
            next,
            header,
            compact,
            last,
        })?;
        Ok(())
    }

    fn leave_stream(&mut self, cancellation: Cancellation) -> Result<(), NoMemory>
        requires known { (cancellation.next == 0) ≡ false }
        requires numbers { self.old.given < 2 ^ 63 }
        ensures ok { OnOk result (self.new
            ≡ left_as self.old (watches_left cancellation self.old.step
            (without_stream cancellation.stream self.old.streams)
            self.old.given self.old.watches)) }
        ensures err { OnErr result (self.new ≡ self.old) }
    {
        ready_to_leave(self.alloc, cancellation, &mut self.watches)?;
        self.streams.reserve(seats(cancellation, &self.watches))?;
        self.index.forget();
        self.idle = false;
        drop_stream(cancellation.stream, &mut self.streams);
        self.given = leave_all(
            cancellation,
            self.step,
            self.given,
            &mut self.streams,
            &mut self.watches,
        );
        Ok(())
    }
}

/// Whether nothing is lost by a cancellation that names this compaction, of a stream with this next.
fn is_cut(compact: u64, next: u64) -> bool
    ensures { result ≡ (compact == 0 || next == 0) }
{
    compact == 0 || next == 0
}
