ghost use Rattle.std.specs.Prelude.{◌≡◌, [], ◌<◌, ◌≤◌, ◌^◌, ◌-◌, None, Some, slice_get, slice_set, length, IsSome, IfOk, IfErr, OnErr};
ghost use Rattle.std.specs.Option.{option_copied};
ghost use Rattle.store_model.specs.declared.watch.OpenWatch.{OpenWatch};
ghost use Rattle.store_model.specs.History.{History};
ghost use Rattle.store_index.specs.Index.{HoldsKept};
ghost use Rattle.store_model.specs.Watches.{watch_of, with_next, opened, pushed, push_to, progressed, progress_to, is_synced, watch_header, first_next};
ghost use Rattle.store_world.specs.Store.{state_of, Stands, Opens};
ghost use Rattle.store_world.specs.Faults.{Gives, IsFault};
ghost use Rattle.store_world.specs.Pushes.{IsPush, IsPushOf, TellsNothing, moved, watch_among};

use crate::requests::header;
use crate::store::Store;
use crate::table::Table;
use etcd_types::{Header, List, NoMemory, WatchAsk, WatchItem};
use store_model::{OpenWatch, StoreFault};

/// A message of a watch, and the revision from which the watch goes on, where that changes.
#[derive(Debug, Drop)]
pub(crate) struct Push {
    pub(crate) item: WatchItem,
    pub(crate) next: Option<u64>,
}

impl Store {
    pub(crate) fn open(&mut self, member: u32, ask: &WatchAsk) -> Result<u64, NoMemory>
        ensures step { IfOk result (λ number. (h : History) → HoldsKept self.old.index h → Opens self.new number (opened (state_of self.old h) member ask.now)) }
        ensures err { OnErr result (self.new ≡ self.old) }
    {
        let number = self.watches.as_slice().len() as u64 + 1;
        let ask = ask.copy(self.alloc)?;
        self.index.follow(self.alloc, number, &ask)?;
        self.watches.push(OpenWatch {
            member,
            ask,
            next: 0,
        })?;
        Ok(number)
    }

    /// Pushes what comes next on a watch.
    pub(crate) fn push_next(&mut self, number: u64) -> Result<WatchItem, StoreFault>
        ensures step { IfOk result (λ item. (h : History) → HoldsKept self.old.index h → Gives self.new item (pushed (state_of self.old h) number)) }
        ensures fault { IfErr result (λ fault. (h : History) → HoldsKept self.old.index h → IsFault fault (pushed (state_of self.old h) number)) }
        ensures err { OnErr result (self.new ≡ self.old) }
    {
        match self.next_push(number) {
            Ok(push) => Ok(self.go_on(number, push)),
            Err(StoreFault::NothingToPush(watch)) => {
                self.note_silent(number);
                Err(StoreFault::NothingToPush(watch))
            }
            Err(fault) => Err(fault),
        }
    }

    /// Notes that there is nothing to tell a watch, so that the revisions up to the newest aren't looked through again.
    fn note_silent(&mut self, number: u64)
        requires { (h : History) → HoldsKept self.old.index h → TellsNothing (state_of self.old h) number }
        ensures { self.new ≡ self.old }
    {
        if let Some(watch) = watch_among(&self.watches, number) {
            self.index.note(number, &watch.ask, watch.next);
        }
    }

    #[tactic(auto, using(store_model::proofs::WatchLemmas::of_pushes))]
    fn next_push(&self, number: u64) -> Result<Push, StoreFault>
        ensures step { IfOk result (λ push. (h : History) → HoldsKept self.now.index h → IsPushOf (state_of self.now h) number push (pushed (state_of self.now h) number)) }
        ensures fault { IfErr result (λ fault. (h : History) → HoldsKept self.now.index h → IsFault fault (pushed (state_of self.now h) number)) }
    {
        match self.watch(number) {
            None => Err(StoreFault::NoSuchWatch(number)),
            Some(watch) => self.push_for(number, watch),
        }
    }

    /// Tells how far a watch has come.
    pub(crate) fn push_progress(&mut self, number: u64) -> Result<WatchItem, StoreFault>
        ensures step { IfOk result (λ item. (h : History) → HoldsKept self.old.index h → Gives self.new item (progressed (state_of self.old h) number)) }
        ensures fault { IfErr result (λ fault. (h : History) → HoldsKept self.old.index h → IsFault fault (progressed (state_of self.old h) number)) }
        ensures err { OnErr result (self.new ≡ self.old) }
    {
        match self.next_progress(number) {
            Ok(push) => Ok(self.go_on(number, push)),
            Err(fault) => Err(fault),
        }
    }

    #[tactic(auto, using(store_model::proofs::WatchLemmas::of_pushes))]
    fn next_progress(&self, number: u64) -> Result<Push, StoreFault>
        ensures step { IfOk result (λ push. (h : History) → HoldsKept self.now.index h → IsPushOf (state_of self.now h) number push (progressed (state_of self.now h) number)) }
        ensures fault { IfErr result (λ fault. (h : History) → HoldsKept self.now.index h → IsFault fault (progressed (state_of self.now h) number)) }
    {
        match self.watch(number) {
            None => Err(StoreFault::NoSuchWatch(number)),
            Some(watch) => self.progress_for(number, watch),
        }
    }

    /// The watch of this number.
    pub(crate) fn watch(&self, number: u64) -> Option<&OpenWatch>
        ensures { option_copied result ≡ watch_of (state_of self.now []) number }
    {
        watch_among(&self.watches, number)
    }

    fn push_for(&self, number: u64, watch: &OpenWatch) -> Result<Push, StoreFault>
        ensures step { IfOk result (λ push. (h : History) → HoldsKept self.now.index h
            → IsPush (state_of self.now h) number watch.now push
            (push_to (state_of self.now h) number watch.now)) }
        ensures fault { IfErr result (λ fault. (h : History) → HoldsKept self.now.index h → IsFault fault (push_to (state_of self.now h) number watch.now)) }
    {
        let header = self.watch_header(watch);
        let index = self.index.get();
        if watch.next == 0 {
            return Ok(Push {
                item: WatchItem::Created(header),
                next: Some(first_next(index.newest, watch.ask.start)),
            });
        }
        if watch.next < index.compacted {
            return Ok(Push {
                item: WatchItem::Canceled {
                    header,
                    compact: index.compacted,
                },
                next: None,
            });
        }
        let batch = self
            .index
            .events(self.alloc, number, &watch.ask, watch.next)?;
        if batch.events.as_slice().is_empty() {
            return Err(StoreFault::NothingToPush(number));
        }
        Ok(Push {
            item: WatchItem::Events {
                header,
                events: batch.events,
            },
            next: Some(batch.next),
        })
    }

    fn progress_for(&self, number: u64, watch: &OpenWatch) -> Result<Push, StoreFault>
        ensures step { IfOk result (λ push. (h : History) → HoldsKept self.now.index h
            → IsPush (state_of self.now h) number watch.now push
            (progress_to (state_of self.now h) number watch.now)) }
        ensures fault { IfErr result (λ fault. (h : History) → HoldsKept self.now.index h → IsFault fault (progress_to (state_of self.now h) number watch.now)) }
    {
        if !watch.ask.progress {
            return Err(StoreFault::NotAsked(number));
        }
        let header = self.watch_header(watch);
        let newest = self.index.get().newest;
        if !self.is_synced(number, watch)? {
            return Err(StoreFault::NotSynced {
                next: watch.next,
                newest,
            });
        }
        Ok(Push {
            item: WatchItem::Events {
                header,
                events: List::new(self.alloc),
            },
            next: Some(watch.next.max(newest + 1)),
        })
    }

    /// Whether the watch was created and has nothing to push.
    fn is_synced(&self, number: u64, watch: &OpenWatch) -> Result<bool, NoMemory>
        ensures { IfOk result (λ synced. (h : History) → HoldsKept self.now.index h → synced ≡ is_synced (state_of self.now h) watch.now) }
    {
        if watch.next == 0 || watch.next < self.index.get().compacted {
            return Ok(false);
        }
        let batch = self
            .index
            .events(self.alloc, number, &watch.ask, watch.next)?;
        Ok(batch.events.as_slice().is_empty())
    }

    fn watch_header(&self, watch: &OpenWatch) -> Header
        ensures { (h : History) → HoldsKept self.now.index h → result ≡ watch_header (state_of self.now h) watch.now }
    {
        header(watch.member, self.index.get().newest)
    }

    /// Moves the watch on, and gives the message.
    fn go_on(&mut self, number: u64, push: Push) -> WatchItem
        requires { IsSome (watch_of (state_of self.old []) number) }
        ensures item { result ≡ push.item }
        ensures watch { (h : History) (w : OpenWatch) → HoldsKept self.old.index h
            → watch_of (state_of self.old h) number ≡ Some w
            → Stands self.new (moved (state_of self.old h) number w push.next) }
    {
        if let Some(next) = push.next {
            self.set_next(number, next);
        }
        push.item
    }

    fn set_next(&mut self, number: u64, next: u64)
        requires { IsSome (watch_of (state_of self.old []) number) }
        ensures { (h : History) (w : OpenWatch) → HoldsKept self.old.index h
            → watch_of (state_of self.old h) number ≡ Some w
            → Stands self.new (with_next (state_of self.old h) number w next) }
    {
        self.watches.set_next((number - 1) as usize, next);
    }
}

impl Table<OpenWatch> {
    /// Moves the watch at this place on.
    fn set_next(&mut self, place: usize, next: u64)
        requires { place < length self.old }
        ensures { (w : OpenWatch) → slice_get self.old place ≡ Some w → self.new ≡ slice_set self.old place (record w { next = next }) }
    {
        let watch = &mut self.items[place];
        watch.next = next;
    }
}

/// The watch of this number among these, which are numbered from 1.
fn watch_among(watches: &Table<OpenWatch>, number: u64) -> Option<&OpenWatch>
    ensures { option_copied result ≡ watch_among watches.now number }
{
    if number == 0 {
        return None;
    }
    watches.as_slice().get((number - 1) as usize)
}

/// The first revision of a watch: where it names none, the one behind the newest.
fn first_next(newest: u64, start: u64) -> u64
    requires { newest ≤ 2 ^ 63 }
    ensures { result ≡ first_next newest start }
{
    if start == 0 { newest + 1 } else { start }
}
