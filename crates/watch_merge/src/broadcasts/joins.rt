ghost use Rattle.std.specs.Prelude.{◌≡◌, ◌<◌, ◌+◌, ◌^◌, None, IfOk, OnOk, OnErr};
ghost use Rattle.watch_model.specs.declared.stream.Joined.TheVariants as joined;
ghost use Rattle.watch_model.specs.Lookups.{watch_at, with_new_watch};
ghost use Rattle.watch_model.specs.Joining.{answered, join_answer, joined, joined_as, seated, seated_as, seated_at, stream_to_join};
ghost use Rattle.watch_queue.specs.Watching.{shown};

use super::Broadcasts;
use crate::watches::insert_watch;
use etcd_types::{Header, NoMemory, WatchAsk};
use watch_model::{Joined, WatchPlace};
use watch_queue::{Watching, new_watch, seat};
use watch_streams::{next_of, open};

impl Broadcasts {
    /// A watch is asked for, by a ticket that isn't known; `last` is the highest header that was delivered. It joins the
    /// stream of its range that is furthest ahead and not past it, or a new one where there is none.
    ///
    /// Where memory was wanting it isn't known.
    pub fn join(&mut self, ticket: u64, ask: WatchAsk, last: Header) -> Result<Joined, NoMemory>
        requires new { watch_at ticket self.old.watches ≡ None }
        requires numbers { self.old.given < 2 ^ 63 }
        ensures answer { IfOk result (λ j. j ≡ join_answer self.old ask last) }
        ensures state { OnOk result (self.new ≡ joined self.old ticket ask last) }
        ensures err { OnErr result (self.new ≡ self.old) }
    {
        let watch = new_watch(self.alloc, ticket, ask)?;
        self.join_as(watch, last)
    }

    fn join_as(&mut self, watch: Watching, last: Header) -> Result<Joined, NoMemory>
        requires new { watch_at watch.ticket self.old.watches ≡ None }
        requires numbers { self.old.given < 2 ^ 63 }
        ensures answer { IfOk result (λ j. j ≡ answered self.old.given (stream_to_join self.old.streams watch.ask.range watch.next last.revision)) }
        ensures state { OnOk result (self.new ≡ joined_as self.old (seated self.old.streams self.old.given self.old.step last (shown watch))) }
        ensures err { OnErr result (self.new ≡ self.old) }
    {
        self.index.build(&self.streams);
        let found = match self
            .index
            .stream_to_join(&self.streams, &watch.ask.range, watch.next, last.revision)
        {
            None => return self.join_fresh(watch),
            Some(found) => found,
        };
        let number = found.number;
        let next = next_of(found);
        let created = found.stream.is_created();
        self.join_standing(number, next, created, last, watch)?;
        Ok(Joined::Standing(number))
    }

    fn join_standing(
        &mut self,
        number: u64,
        next: u64,
        created: bool,
        last: Header,
        watch: Watching,
    ) -> Result<(), NoMemory>
        requires { watch_at watch.ticket self.old.watches ≡ None }
        ensures ok { OnOk result (self.new ≡ record self.old { watches = with_new_watch (seated_as last number next created (shown watch)) self.old.watches }) }
        ensures err { OnErr result (self.new ≡ self.old) }
    {
        self.watches.reserve(1)?;
        let mut seated = watch;
        seat(number, next, created, last, &mut seated)?;
        insert_watch(seated, &mut self.watches);
        Ok(())
    }

    fn join_fresh(&mut self, watch: Watching) -> Result<Joined, NoMemory>
        requires new { watch_at watch.ticket self.old.watches ≡ None }
        requires numbers { self.old.given < 2 ^ 63 }
        ensures answer { IfOk result (λ j. j ≡ joined.Fresh (self.old.given + 1)) }
        ensures state { OnOk result ((last : _) → self.new ≡ joined_as self.old (seated_at self.old.streams self.old.given self.old.step last (shown watch) None)) }
        ensures err { OnErr result (self.new ≡ self.old) }
    {
        self.watches.reserve(1)?;
        self.streams.reserve(1)?;
        let range = watch.ask.range.copy(self.alloc)?;
        let number = self.given + 1;
        self.index.opened(number, &range);
        open(number, self.step, range, watch.next, &mut self.streams);
        self.idle = false;
        let mut seated = watch;
        seated.place = WatchPlace::In(number);
        insert_watch(seated, &mut self.watches);
        self.given = number;
        Ok(Joined::Fresh(number))
    }
}
