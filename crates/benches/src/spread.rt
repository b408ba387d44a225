use etcd_types::{Bytes, Change, Event, Header, KeyRange, Kv, List, NoMemory, WatchAsk};
use std::alloc::{AllocError, AllocFailed, Global};
use std::io;
use watch_merge::{Broadcasts, StreamJob, WatchFault};

const MOST_NUMBERS: u64 = 1_000_000_000;

/// Memory or a clock failed, or the watches weren't as they are to be.
#[derive(Clone, Copy, Debug)]
pub struct Missing;

impl From<NoMemory> for Missing {
    fn from(_e: NoMemory) -> Missing {
        Missing
    }
}

impl From<AllocError> for Missing {
    fn from(_e: AllocError) -> Missing {
        Missing
    }
}

impl<T: Drop> From<AllocFailed<T>> for Missing {
    fn from(_e: AllocFailed<T>) -> Missing {
        Missing
    }
}

impl From<io::Error> for Missing {
    fn from(_e: io::Error) -> Missing {
        Missing
    }
}

impl From<WatchFault> for Missing {
    fn from(_e: WatchFault) -> Missing {
        Missing
    }
}

/// Watches over a number of ranges.
#[derive(Drop)]
pub struct Spread {
    alloc: Global,
    watches: Broadcasts,
    ranges: u64,
}

fn header(revision: u64) -> Header {
    Header {
        cluster: 1,
        member: 1,
        revision,
        term: 1,
    }
}

fn key(alloc: Global, number: u64) -> Result<Bytes, NoMemory> {
    Bytes::from_slice(alloc, &number.to_be_bytes())
}

fn event(alloc: Global, revision: u64) -> Result<Event, NoMemory> {
    Ok(Event {
        change: Change::Put(Kv {
            key: key(alloc, 0)?,
            value: Bytes::from_slice(alloc, &[7; 100])?,
            create: revision,
            modified: revision,
            version: 1,
            lease: 0,
        }),
        prev: None,
    })
}

impl Spread {
    pub fn new(alloc: Global, ranges: u64) -> Spread {
        Spread {
            alloc,
            watches: Broadcasts::new(alloc),
            ranges,
        }
    }

    /// A watch from now over one of the ranges.
    pub fn join(&mut self, ticket: u64, number: u64) -> Result<(), Missing> {
        let place = if self.ranges == 0 {
            0
        } else {
            number % self.ranges
        };
        let ask = WatchAsk {
            range: KeyRange {
                key: key(self.alloc, place)?,
                end: Bytes::new(self.alloc),
            },
            start: 0,
            no_put: false,
            no_delete: false,
            prev_kv: false,
            progress: false,
        };
        if self.watches.is_known(ticket) || self.watches.given() > MOST_NUMBERS {
            return Err(Missing);
        }
        self.watches.join(ticket, ask, header(1))?;
        Ok(())
    }

    /// All streams are opened, and stand created.
    pub fn open_all(&mut self) -> Result<(), Missing> {
        for _ in 0..self.ranges {
            if let Some(StreamJob::Open { stream, .. }) = self.watches.next_job()? {
                self.watches.created(stream, header(1), header(1))?;
            }
        }
        Ok(())
    }

    /// An event of this revision comes on the first stream.
    pub fn deliver(&mut self, revision: u64) -> Result<(), Missing> {
        let mut events = List::new(self.alloc);
        events.push(event(self.alloc, revision)?)?;
        if self.watches.given() > MOST_NUMBERS {
            return Err(Missing);
        }
        self.watches.deliver(1, header(revision), &events)?;
        Ok(())
    }

    /// Each watch takes an item.
    pub fn take_all(&mut self, watches: u64) -> Result<(), Missing> {
        for ticket in 0..watches {
            if self.watches.given() > MOST_NUMBERS {
                return Err(Missing);
            }
            self.watches.take(ticket, header(1))?;
        }
        Ok(())
    }
}
