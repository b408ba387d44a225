ghost use Rattle.std.specs.Prelude.{◌≡◌, ◌<◌, ◌^◌, OnOk, None};
ghost use Rattle.watch_model.specs.Lookups.{watch_at};

use crate::random::Random;
use crate::store::{Key, header_at};
use etcd_types::{Header, List, NoMemory, WatchAsk, WatchItem};
use message_text::Text;
use std::alloc::Global;
use table_rows::Wrong;
use text_words::{Words, is_word, read_number};
use watch_merge::{Broadcasts, Joined, StreamJob, WatchFault};

const MOST_NUMBERS: u64 = 1_000_000;

/// Watches, and what came of the last step that was tried on them.
#[derive(Drop)]
pub struct Watches {
    alloc: Global,
    watches: Broadcasts,
    last: Header,
    told: String,
}

impl Watches {
    pub fn new(alloc: Global) -> Watches {
        Watches {
            alloc,
            watches: Broadcasts::new(alloc),
            last: Header {
                cluster: 0,
                member: 0,
                revision: 0,
                term: 0,
            },
            told: String::new(alloc),
        }
    }

    /// What came of the last step: an item's text, a job, a stream's number, or why the step was not taken.
    pub fn told(&self) -> &str {
        self.told.as_str().trim_end()
    }

    /// Takes a step.
    pub fn step(&mut self, line: &str) -> Result<(), Wrong> {
        self.told = String::new(self.alloc);
        let mut words = Words::of(b' ', line.as_bytes());
        self.take_step(&mut words)?;
        words.end()?;
        Ok(())
    }

    fn take_step(&mut self, words: &mut Words) -> Result<(), Wrong> {
        let name = words.take()?;
        if is_word(name, "seen") {
            self.last = Header::read(self.alloc, words)?;
            self.watches = Broadcasts::new(self.alloc);
            Ok(())
        } else if is_word(name, "ask") {
            self.ask(words)
        } else if is_word(name, "send") {
            self.send()
        } else if is_word(name, "item") {
            self.item(words)
        } else if is_word(name, "take") {
            self.take(words)
        } else {
            self.take_other_step(name, words)
        }
    }

    fn take_other_step(&mut self, name: &[u8], words: &mut Words) -> Result<(), Wrong> {
        if is_word(name, "cut") {
            let stream = read_number(words)?;
            self.check_numbers()?;
            match self.watches.cut(stream) {
                Some(number) => write!(self.told, "{number}")?,
                None => self.told.push_str("none")?,
            }
            Ok(())
        } else if is_word(name, "leave") {
            let ticket = read_number(words)?;
            let known = self.watches.remove(ticket);
            write!(self.told, "{known}")?;
            Ok(())
        } else if is_word(name, "split") {
            let ticket = read_number(words)?;
            let next = read_number(words)?;
            let done = self.watches.split_slow(ticket, next);
            self.tell_done(done)
        } else {
            self.take_many_steps(name, words)
        }
    }

    fn take_many_steps(&mut self, name: &[u8], words: &mut Words) -> Result<(), Wrong> {
        if is_word(name, "puts") {
            let stream = read_number(words)?;
            let from = read_number(words)?;
            let count = read_number(words)?;
            for more in 0..count {
                self.told = String::new(self.alloc);
                self.put(stream, from.saturating_add(more))?;
            }
            Ok(())
        } else if is_word(name, "takes") {
            let ticket = read_number(words)?;
            let count = read_number(words)?;
            for _ in 0..count {
                self.told = String::new(self.alloc);
                self.take_item(ticket)?;
            }
            Ok(())
        } else if is_word(name, "random") {
            let seed = read_number(words)?;
            let steps = read_number(words)?;
            self.run_random(seed, steps)
        } else {
            self.take_numbers(name, words)
        }
    }

    /// A step of the proxy begins, or the next stream number is taken for a stream that isn't a client's.
    fn take_numbers(&mut self, name: &[u8], words: &mut Words) -> Result<(), Wrong> {
        if is_word(name, "begin") {
            let step = read_number(words)?;
            self.watches.begin_step(step);
            self.tell_done(Ok(()))
        } else if is_word(name, "number") {
            self.check_numbers()?;
            let number = self.watches.take_number();
            write!(self.told, "{number}")?;
            Ok(())
        } else {
            Err(Wrong::Word)
        }
    }

    fn run_random(&mut self, seed: u64, steps: u64) -> Result<(), Wrong> {
        let mut random = Random::new(self.alloc, seed);
        let done = random.run(steps);
        let (wrong, behind) = (random.wrong, random.behind());
        let many = random.items >= steps / 10;
        drop(random);
        done?;
        write!(self.told, "{wrong} wrong, {behind} behind, many: {many}")?;
        Ok(())
    }

    /// A put of `a` at this revision comes on the stream.
    fn put(&mut self, stream: u64, revision: u64) -> Result<(), Wrong> {
        let mut events = List::new(self.alloc);
        events.push(Key::A.event(self.alloc, revision)?)?;
        let header = header_at(revision);
        self.see(header);
        self.check_numbers()?;
        let done = self.watches.deliver(stream, header, &events);
        self.tell_done(done)
    }

    fn ask(&mut self, words: &mut Words) -> Result<(), Wrong> {
        let ticket = read_number(words)?;
        let ask = WatchAsk::read(self.alloc, words)?;
        self.check_numbers()?;
        if self.watches.is_known(ticket) {
            return Err(Wrong::Word);
        }
        match self.watches.join(ticket, ask, self.last)? {
            Joined::Standing(stream) => write!(self.told, "joins {stream}")?,
            Joined::Fresh(stream) => write!(self.told, "new {stream}")?,
        }
        Ok(())
    }

    fn send(&mut self) -> Result<(), Wrong> {
        match self.watches.next_job()? {
            None => self.told.push_str("nothing")?,
            Some(StreamJob::Close { stream }) => write!(self.told, "close {stream}")?,
            Some(
                StreamJob::Open {
                    stream,
                    range,
                    start,
                },
            ) => {
                write!(self.told, "open {stream} ")?;
                range.key.push(&mut self.told)?;
                range.end.push(&mut self.told)?;
                start.push(&mut self.told)?;
            }
        }
        Ok(())
    }

    fn item(&mut self, words: &mut Words) -> Result<(), Wrong> {
        let stream = read_number(words)?;
        let item = WatchItem::read(self.alloc, words)?;
        let done = match item {
            WatchItem::Created(header) => {
                self.see(header);
                self.watches.created(stream, header, self.last)
            }
            WatchItem::Events { header, events } => {
                self.see(header);
                self.check_numbers()?;
                self.watches.deliver(stream, header, &events)
            }
            WatchItem::Canceled { header, compact } => {
                self.see(header);
                self.check_numbers()?;
                self.watches.cancelled(stream, header, compact, self.last)
            }
        };
        self.tell_done(done)
    }

    fn take(&mut self, words: &mut Words) -> Result<(), Wrong> {
        let ticket = read_number(words)?;
        self.take_item(ticket)
    }

    fn take_item(&mut self, ticket: u64) -> Result<(), Wrong> {
        self.check_numbers()?;
        match self.watches.take(ticket, self.last) {
            Ok(Some(told)) => told.item().push(&mut self.told)?,
            Ok(None) => self.told.push_str("none")?,
            Err(fault) => write!(self.told, "{fault}")?,
        }
        Ok(())
    }

    /// The highest header is kept.
    fn see(&mut self, header: Header) {
        if header.revision >= self.last.revision {
            self.last = header;
        }
    }

    fn tell_done(&mut self, done: Result<(), WatchFault>) -> Result<(), Wrong> {
        match done {
            Ok(()) => self.told.push_str("done")?,
            Err(fault) => write!(self.told, "{fault}")?,
        }
        Ok(())
    }

    /// There are stream numbers left.
    fn check_numbers(&self) -> Result<(), Wrong>
        ensures { OnOk result (self.now.watches.given < 2 ^ 63) }
    {
        if self.watches.given() > MOST_NUMBERS {
            return Err(Wrong::Word);
        }
        Ok(())
    }
}
