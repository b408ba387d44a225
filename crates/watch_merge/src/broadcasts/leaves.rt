ghost use Rattle.std.specs.Prelude.{◌≡◌, is_ok, is_some, IfErr};
ghost use Rattle.watch_model.specs.Lookups.{watch_at};
ghost use Rattle.watch_model.specs.Splitting.{left_place, split_slow};
ghost use Rattle.watch_model.specs.Leaving.{removed};
ghost use Rattle.watch_merge.specs.declared.fault.WatchFault.TheVariants.{NoSuchWatch};

use super::Broadcasts;
use crate::fault::WatchFault;
use crate::watches::{drop_watch, place_of_watch, split};
use watch_model::WatchPlace;
use watch_queue::has_member;
use watch_streams::empty;

impl Broadcasts {
    /// A watch is left by its client, whatever waits in its queue. Whether it was known.
    pub fn remove(&mut self, ticket: u64) -> bool
        ensures known { result ≡ is_some (watch_at ticket self.old.watches) }
        ensures state { self.new ≡ removed self.old ticket (watch_at ticket self.old.watches) }
    {
        let Some(place) = place_of_watch(ticket, &self.watches) else {
            return false;
        };
        drop_watch(ticket, &mut self.watches);
        self.leave(place);
        true
    }

    /// A watch leaves its stream with this revision as its own next, and joins one again when its queue is empty.
    pub fn split_slow(&mut self, ticket: u64, next: u64) -> Result<(), WatchFault>
        ensures known { is_ok result ≡ is_some (watch_at ticket self.old.watches) }
        ensures fault { IfErr result (λ e. e ≡ NoSuchWatch ticket) }
        ensures state { self.new ≡ split_slow self.old ticket next (watch_at ticket self.old.watches) }
    {
        let Some(place) = place_of_watch(ticket, &self.watches) else {
            return Err(WatchFault::NoSuchWatch(ticket));
        };
        split(ticket, next, &mut self.watches);
        self.leave(place);
        Ok(())
    }

    /// A watch left this place: the stream that has no member then is closed.
    fn leave(&mut self, place: WatchPlace)
        ensures { self.new ≡ left_place place self.old }
    {
        match place {
            WatchPlace::In(stream) => {
                if !has_member(stream, &self.watches) {
                    self.index.emptied(stream, &self.streams);
                    self.idle = false;
                    empty(stream, self.step, &mut self.streams);
                }
            }
            WatchPlace::Split | WatchPlace::Ended => {}
        }
    }
}
