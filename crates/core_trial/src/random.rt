ghost use Rattle.std.specs.Prelude.{◌≡◌, ◌<◌, ◌^◌, OnOk, vec_len};

use crate::draw::Draw;
use crate::store::{Key, header_at, last_of};
use crate::taker::Taker;
use etcd_types::{Header, KeyRange, WatchAsk};
use std::alloc::Global;
use table_rows::Wrong;
use watch_merge::{Broadcasts, StreamJob};

const MOST_NUMBERS: u64 = 1_000_000;

const MOST_WATCHES: usize = 16;

/// A stream that was opened at the store.
#[derive(Clone, Copy)]
struct Opened {
    stream: u64,
    key: Key,
    /// The revision from which on it hasn't pushed the events, or 0 where that is behind the newest.
    next: u64,
    created: bool,
}

/// Watches on a made-up store, with calls in a random order, and what was wrong in what their takers had.
#[derive(Drop)]
pub struct Random {
    alloc: Global,
    draw: Draw,
    watches: Broadcasts,
    opened: Vec<Opened>,
    takers: Vec<Taker>,
    newest: u64,
    compacted: u64,
    tickets: u64,
    /// Items and answers that were not the right ones.
    pub wrong: u64,
    pub items: u64,
}

impl Random {
    pub fn new(alloc: Global, seed: u64) -> Random {
        Random {
            alloc,
            draw: Draw::new(seed),
            watches: Broadcasts::new(alloc),
            opened: Vec::new(alloc),
            takers: Vec::new(alloc),
            newest: 1,
            compacted: 0,
            tickets: 0,
            wrong: 0,
            items: 0,
        }
    }

    fn header(&self) -> Header {
        header_at(self.newest)
    }

    /// So many steps, behind which all that is due is sent, pushed and taken.
    pub fn run(&mut self, steps: u64) -> Result<(), Wrong> {
        for _ in 0..steps {
            self.step()?;
        }
        self.settle()
    }

    /// One call, or a change of the store.
    fn step(&mut self) -> Result<(), Wrong> {
        match self.draw.below(16) {
            0..3 => {
                let more = self.draw.below(4);
                self.newest = self.newest.saturating_add(more);
                Ok(())
            }
            3 => self.ask(),
            4..7 => self.send(),
            7..12 => self.push(16),
            12..15 => self.take_some(),
            _ => self.end_one(),
        }
    }

    fn ask(&mut self) -> Result<(), Wrong> {
        if self.takers.len() >= MOST_WATCHES {
            return Ok(());
        }
        let key = if self.draw.below(3) == 0 {
            Key::B
        } else {
            Key::A
        };
        let start = match self.draw.below(4) {
            0 => self.newest.saturating_add(self.draw.below(9)),
            1 => self.newest.saturating_sub(self.draw.below(200)),
            _ => 0,
        };
        let taker = Taker {
            ticket: self.tickets,
            key,
            start,
            prev: self.draw.below(2) == 0,
            progress: self.draw.below(2) == 0,
            next: 0,
            ended: false,
        };
        self.tickets = self.tickets.saturating_add(1);
        self.takers.push(taker)?;
        self.join(taker)
    }

    fn join(&mut self, taker: Taker) -> Result<(), Wrong> {
        let ask = WatchAsk {
            range: taker.key.range(self.alloc)?,
            start: taker.start,
            no_put: false,
            no_delete: false,
            prev_kv: taker.prev,
            progress: taker.progress,
        };
        self.check_numbers()?;
        if self.watches.is_known(taker.ticket) {
            return Err(Wrong::Word);
        }
        let header = self.header();
        self.watches.join(taker.ticket, ask, header)?;
        Ok(())
    }

    fn send(&mut self) -> Result<(), Wrong> {
        match self.watches.next_job()? {
            None => {}
            Some(StreamJob::Close { stream }) => self
                .opened
                .retain(|o: &Opened| o.stream != stream),
            Some(
                StreamJob::Open {
                    stream,
                    range,
                    start,
                },
            ) => self.open(stream, &range, start)?,
        }
        Ok(())
    }

    fn open(&mut self, stream: u64, range: &KeyRange, start: u64) -> Result<(), Wrong> {
        let key = if Key::A.is_in(range) { Key::A } else { Key::B };
        self.opened.push(Opened {
            stream,
            key,
            next: start,
            created: false,
        })?;
        Ok(())
    }

    /// A stream pushes its created message, then the events that it hasn't pushed, or that there are none.
    fn push(&mut self, most: u64) -> Result<(), Wrong> {
        let Some(at) = self.draw.place(self.opened.len()) else {
            return Ok(());
        };
        self.push_at(at, most)
    }

    fn push_at(&mut self, at: usize, most: u64) -> Result<(), Wrong>
        requires { at < vec_len self.old.opened }
    {
        let from = self.opened[at];
        if !from.created {
            return self.create(at);
        }
        if from.next < self.compacted {
            return self.cancel(at);
        }
        let events = from.key.events(self.alloc, from.next, self.newest, most)?;
        let header = self.header();
        self.check_numbers()?;
        if self.watches.deliver(from.stream, header, &events).is_err() {
            self.wrong = self.wrong.saturating_add(1);
        }
        let last = if events.as_slice().is_empty() {
            self.newest
        } else {
            last_of(&events)
        };
        self.opened[at].next = from.next.max(last.saturating_add(1));
        Ok(())
    }

    fn create(&mut self, at: usize) -> Result<(), Wrong>
        requires { at < vec_len self.old.opened }
    {
        let from = self.opened[at];
        let header = self.header();
        if self.watches.created(from.stream, header, header).is_err() {
            self.wrong = self.wrong.saturating_add(1);
        }
        self.opened[at].created = true;
        if from.next == 0 {
            self.opened[at].next = self.newest.saturating_add(1);
        }
        Ok(())
    }

    /// The store ends a stream, as what it hasn't pushed was compacted.
    fn cancel(&mut self, at: usize) -> Result<(), Wrong>
        requires { at < vec_len self.old.opened }
    {
        let from = self.opened.swap_remove(at);
        let header = self.header();
        self.check_numbers()?;
        if self
            .watches
            .cancelled(from.stream, header, self.compacted, header)
            .is_err()
        {
            self.wrong = self.wrong.saturating_add(1);
        }
        Ok(())
    }

    /// A stream is cut, or compacted and cancelled, or a watch is left.
    fn end_one(&mut self) -> Result<(), Wrong> {
        match self.draw.below(24) {
            0..4 => self.cut(),
            4..6 => {
                let behind = self.draw.below(60);
                self.compacted = self.compacted.max(self.newest.saturating_sub(behind));
                match self.draw.place(self.opened.len()) {
                    None => Ok(()),
                    Some(at) => self.cancel(at),
                }
            }
            6..8 => {
                self.leave();
                Ok(())
            }
            _ => Ok(()),
        }
    }

    fn cut(&mut self) -> Result<(), Wrong> {
        let Some(at) = self.draw.place(self.opened.len()) else {
            return Ok(());
        };
        let from = self.opened.swap_remove(at);
        self.check_numbers()?;
        self.watches.cut(from.stream);
        Ok(())
    }

    fn leave(&mut self) {
        let Some(at) = self.draw.place(self.takers.len()) else {
            return;
        };
        let taker = self.takers.swap_remove(at);
        if self.watches.remove(taker.ticket) == taker.ended {
            self.wrong = self.wrong.saturating_add(1);
        }
    }

    /// A watch's items are taken. Every fourth watch's taker is slow.
    fn take_some(&mut self) -> Result<(), Wrong> {
        let Some(at) = self.draw.place(self.takers.len()) else {
            return Ok(());
        };
        if self.takers[at].ticket % 4 == 0 && self.draw.below(256) != 0 {
            return Ok(());
        }
        self.take_at(at)
    }

    fn take_at(&mut self, at: usize) -> Result<(), Wrong>
        requires { at < vec_len self.old.takers }
    {
        let ticket = self.takers[at].ticket;
        for _ in 0..10_000 {
            self.check_numbers()?;
            let header = self.header();
            let told = match self.watches.take(ticket, header) {
                Err(_) => {
                    if !self.takers[at].ended {
                        self.wrong = self.wrong.saturating_add(1);
                    }
                    break;
                }
                Ok(None) => break,
                Ok(Some(told)) => told,
            };
            self.items = self.items.saturating_add(1);
            if !self.takers[at].takes(told.item()) {
                self.wrong = self.wrong.saturating_add(1);
            }
        }
        Ok(())
    }

    /// All that is due is sent, pushed and taken, until nothing is left.
    fn settle(&mut self) -> Result<(), Wrong> {
        for _ in 0..200 {
            for _ in 0..self.takers.len().saturating_mul(2) {
                self.send()?;
            }
            for _ in 0..self.opened.len().saturating_mul(4) {
                self.push(512)?;
            }
            for at in 0..self.takers.len() {
                if at < self.takers.len() {
                    self.take_at(at)?;
                }
            }
        }
        Ok(())
    }

    /// How many takers haven't had all puts.
    pub fn behind(&self) -> usize {
        let mut behind = 0usize;
        for taker in &self.takers {
            if taker.is_behind(self.newest) {
                behind = behind.saturating_add(1);
            }
        }
        behind
    }

    /// There are stream numbers left.
    fn check_numbers(&self) -> Result<(), Wrong>
        ensures { OnOk result (self.now.watches.given < 2 ^ 63) }
    {
        if self.watches.given() > MOST_NUMBERS {
            return Err(Wrong::Word);
        }
        Ok(())
    }
}
