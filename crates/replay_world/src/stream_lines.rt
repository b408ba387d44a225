ghost use Rattle.std.specs.Prelude.{◌≡◌, ◌∷◌, [], drop, IfOk, IsSome, OnOk, Some};
ghost use Rattle.replay_world.specs.Calls.{is_standing, is_open, is_open_at};
ghost use Rattle.replay_world.specs.World.{Gives, Stands};
ghost use Rattle.script_text.specs.declared.item.Item.TheVariants as told;
ghost use Rattle.world_model.specs.Places.{ended, nth, with_nth, with_stream};
ghost use Rattle.world_model.specs.Steps.{at_place};
ghost use Rattle.replay_places.specs.Turns.{turned};
ghost use Rattle.world_model.specs.State.{World as Model, OpenedStream as Opened};
ghost use Rattle.world_model.specs.Streams.{with_message, message_pushed, progress_pushed, delivered, cut};

use crate::world::World;
use core_face::{CoreEvent, ProxyCore};
use etcd_types::{List, NoMemory, WatchItem};
use replay_parts::{OpenedStream, drop_first, end_stream, nth, one, stream_fault};
use replay_places::Turn;
use script_text::Item;
use std::alloc::Global;
use world_model::WorldFault;

impl<C: ProxyCore> World<C> {
    /// Its proxy is in the life in which it opened the stream, and the stream was neither cut nor closed.
    fn is_standing(&self, stream: &OpenedStream) -> bool
        ensures { result ≡ is_standing self.now.places stream.now }
    {
        !stream.is_ended() && self.places.is_alive(stream.proxy(), stream.life())
    }

    /// No cancellation was pushed either.
    pub(crate) fn is_open(&self, stream: &OpenedStream) -> bool
        ensures { result ≡ is_open self.now.places stream.now }
    {
        !stream.is_cancelled() && self.is_standing(stream)
    }

    /// Whether the stream of this number is open.
    pub(crate) fn is_open_at(&self, number: u64) -> bool
        ensures { result ≡ is_open_at self.now.places (nth self.now.streams number) }
    {
        match nth(&self.streams, number) {
            Some(stream) => self.is_open(stream),
            None => false,
        }
    }

    /// The store pushes a message into a stream.
    pub(crate) fn push(&mut self, number: u64) -> Result<List<Item>, WorldFault>
        ensures step { (w : Model) → Stands self.old w → Gives self.new result (message_pushed w number) }
        ensures lines { self.new.lines ≡ self.old.lines }
    {
        if !self.is_open_at(number) {
            return Err(WorldFault::NoSuchStream(number));
        }
        match self.store.push(number) {
            Ok(item) => Ok(self.add_message(number, item)?),
            Err(fault) => Err(stream_fault(number, fault)),
        }
    }

    /// The store tells a stream how far it has come.
    pub(crate) fn tell_progress(&mut self, number: u64) -> Result<List<Item>, WorldFault>
        ensures step { (w : Model) → Stands self.old w → Gives self.new result (progress_pushed w number) }
        ensures lines { self.new.lines ≡ self.old.lines }
    {
        if !self.is_open_at(number) {
            return Err(WorldFault::NoSuchStream(number));
        }
        match self.store.progress(number) {
            Ok(item) => Ok(self.add_message(number, item)?),
            Err(fault) => Err(stream_fault(number, fault)),
        }
    }

    /// A message of the store waits in the stream.
    fn add_message(&mut self, number: u64, item: WatchItem) -> Result<List<Item>, NoMemory>
        requires { IsSome (nth self.old.streams number) }
        ensures items { IfOk result (λ items. items ≡ told.Pushed number item ∷ []) }
        ensures streams { IfOk result (λ items. (s : Opened) → nth self.old.streams number ≡ Some s
            → self.new ≡ record self.old { streams = with_nth self.old.streams number (with_message item s) }) }
        ensures lines { self.new.lines ≡ self.old.lines }
    {
        match told_pushed(self.alloc, number, &item) {
            Ok(items) => {
                add_to(&mut self.streams, number, item)?;
                Ok(items)
            }
            Err(NoMemory) => {
                drop(item);
                Err(NoMemory)
            }
        }
    }

    /// A stream's oldest message arrives at its proxy.
    pub(crate) fn deliver(&mut self, number: u64) -> Result<List<Item>, WorldFault>
        ensures step { (w : Model) → Stands self.old w → Gives self.new result (delivered w number) }
        ensures lines { self.new.lines ≡ self.old.lines }
    {
        let Some(stream) = nth(&self.streams, number) else {
            return Err(WorldFault::NoSuchStream(number));
        };
        if !self.is_standing(stream) {
            return Err(WorldFault::NoSuchStream(number));
        }
        let Some(item) = stream.first(self.alloc)? else {
            return Err(WorldFault::NothingToDeliver(number));
        };
        let proxy = stream.proxy();
        let turn = Turn::Step {
            event: CoreEvent::Item {
                stream: stream.own(),
                item,
            },
            otherwise: WorldFault::NoSuchStream(number),
            own: Item::Delivered { stream: number },
        };
        self.deliver_by(number, proxy, turn)
    }

    /// The oldest message of a stream is delivered by this turn of its proxy.
    fn deliver_by(&mut self, number: u64, proxy: u64, turn: Turn) -> Result<List<Item>, WorldFault>
        requires { IsSome (nth self.old.streams number) }
        ensures step { (w : Model) (s : Opened) → Stands self.old w → nth self.old.streams number ≡ Some s
            → Gives self.new result (at_place w proxy (turned w (with_stream w number (record s { waiting = drop 1 s.waiting })) proxy turn)) }
        ensures lines { self.new.lines ≡ self.old.lines }
    {
        let items = self.places.turn(self.alloc, proxy, turn)?;
        drop_first(&mut self.streams, number);
        Ok(items)
    }

    /// A stream is cut, and what waits in it is dropped.
    pub(crate) fn cut(&mut self, number: u64) -> Result<List<Item>, WorldFault>
        ensures step { (w : Model) → Stands self.old w → Gives self.new result (cut w number) }
        ensures lines { self.new.lines ≡ self.old.lines }
    {
        let Some(stream) = nth(&self.streams, number) else {
            return Err(WorldFault::NoSuchStream(number));
        };
        if !self.is_open(stream) {
            return Err(WorldFault::NoSuchStream(number));
        }
        let proxy = stream.proxy();
        let turn = Turn::Step {
            event: CoreEvent::Cut {
                stream: stream.own(),
            },
            otherwise: WorldFault::NoSuchStream(number),
            own: Item::Cut { stream: number },
        };
        self.end_by(number, proxy, turn)
    }

    /// A stream ends by this turn of its proxy.
    fn end_by(&mut self, number: u64, proxy: u64, turn: Turn) -> Result<List<Item>, WorldFault>
        ensures step { (w : Model) (s : Opened) → Stands self.old w → nth self.old.streams number ≡ Some s
            → Gives self.new result (at_place w proxy (turned w (with_stream w number (ended s)) proxy turn)) }
        ensures lines { self.new.lines ≡ self.old.lines }
    {
        match self.places.turn(self.alloc, proxy, turn) {
            Ok(items) => {
                end_stream(&mut self.streams, number);
                Ok(items)
            }
            Err(fault) => Err(fault),
        }
    }
}

fn told_pushed(alloc: Global, stream: u64, item: &WatchItem) -> Result<List<Item>, NoMemory>
    ensures { IfOk result (λ items. items ≡ told.Pushed stream item.now ∷ []) }
{
    let item = item.copy(alloc)?;
    Ok(one(alloc, Item::Pushed { stream, item })?)
}

/// A message comes into the stream.
fn add_to(streams: &mut Vec<OpenedStream>, number: u64, item: WatchItem) -> Result<(), NoMemory>
    requires { IsSome (nth streams.old.items number) }
    ensures { OnOk result ((s : Opened) → nth streams.old.items number ≡ Some s
        → streams.new.items ≡ with_nth streams.old.items number (with_message item s)) }
{
    let stream = &mut streams[number as usize - 1];
    stream.push(item)?;
    Ok(())
}
