ghost use Rattle.std.specs.Prelude.{◌≡◌, [], false, drop, IsSome, Some, OnOk, IfOk};
ghost use Rattle.world_model.specs.Places.{ended, nth, with_nth};
ghost use Rattle.world_model.specs.State.{OpenedStream as Opened};
ghost use Rattle.world_model.specs.Streams.{is_cancellation, with_message};
ghost use Rattle.replay_parts.specs.Streams.{first_of, without_messages};

use etcd_types::{NoMemory, WatchItem};
use std::alloc::Global;
use std::collections::VecDeque;
use std::marker::Model;

/// A stream that a proxy opened at a member of the store.
#[derive(Drop)]
pub struct OpenedStream {
    pub proxy: u64,
    /// How often that proxy had been started when it opened the stream.
    pub life: u64,
    /// The proxy's own number of the stream.
    pub own: u64,
    /// The messages that were pushed and aren't delivered, in order.
    pub waiting: VecDeque<WatchItem>,
    /// It was cut or closed.
    pub ended: bool,
    /// A cancellation was pushed.
    pub cancelled: bool,
}

impl Model for OpenedStream {
    ghost use Rattle.world_model.specs.State.{OpenedStream as Opened};

    ghost Value = { Opened };

    ghost view = { λ s. record { proxy = s.proxy; life = s.life; own = s.own; waiting = s.waiting.items; ended = s.ended; cancelled = s.cancelled } };
}

impl OpenedStream {
    pub fn new(alloc: Global, proxy: u64, life: u64, own: u64) -> OpenedStream
        ensures { result ≡ record { proxy = proxy; life = life; own = own; waiting = []; ended = false; cancelled = false } }
    {
        OpenedStream {
            proxy,
            life,
            own,
            waiting: VecDeque::new(alloc),
            ended: false,
            cancelled: false,
        }
    }

    pub fn proxy(&self) -> u64
        ensures { result ≡ self.now.proxy }
    {
        self.proxy
    }

    pub fn life(&self) -> u64
        ensures { result ≡ self.now.life }
    {
        self.life
    }

    pub fn own(&self) -> u64
        ensures { result ≡ self.now.own }
    {
        self.own
    }

    pub fn is_ended(&self) -> bool
        ensures { result ≡ self.now.ended }
    {
        self.ended
    }

    pub fn is_cancelled(&self) -> bool
        ensures { result ≡ self.now.cancelled }
    {
        self.cancelled
    }

    /// A copy of the oldest message.
    pub fn first(&self, alloc: Global) -> Result<Option<WatchItem>, NoMemory>
        ensures { IfOk result (λ first. first ≡ first_of self.now.waiting) }
    {
        match self.waiting.front() {
            Some(item) => Ok(Some(item.copy(alloc)?)),
            None => Ok(None),
        }
    }

    /// A message comes.
    pub fn push(&mut self, item: WatchItem) -> Result<(), NoMemory>
        ensures { OnOk result (self.new ≡ with_message item self.old) }
    {
        self.cancelled = is_cancellation(&item);
        self.waiting.push_back(item)?;
        Ok(())
    }

    /// The oldest message is delivered.
    pub fn pop(&mut self)
        ensures { self.new ≡ record self.old { waiting = drop 1 self.old.waiting } }
    {
        drop(self.waiting.pop_front());
    }

    /// No message comes of it any more.
    pub fn end(&mut self)
        ensures { self.new ≡ ended self.old }
    {
        self.waiting.clear();
        self.ended = true;
    }
}

fn is_cancellation(item: &WatchItem) -> bool
    ensures { result ≡ is_cancellation item.now }
{
    matches!(item, WatchItem::Canceled { .. })
}

/// The oldest message of the stream is delivered.
pub fn drop_first(streams: &mut Vec<OpenedStream>, number: u64)
    requires { IsSome (nth streams.old.items number) }
    ensures { (s : Opened) → nth streams.old.items number ≡ Some s
        → streams.new.items ≡ with_nth streams.old.items number (record s { waiting = drop 1 s.waiting }) }
{
    let stream = &mut streams[number as usize - 1];
    stream.pop();
}

/// No message comes of the stream any more, where it is there.
pub fn end_stream(streams: &mut Vec<OpenedStream>, number: u64)
    ensures { streams.new.items ≡ without_messages streams.old.items number (nth streams.old.items number) }
{
    if number == 0 || (streams.len() as u64) < number {
        return;
    }
    let stream = &mut streams[number as usize - 1];
    stream.end();
}
