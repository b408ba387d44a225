//! What is counted of all connections: those that are open, one by one, and those that ended, added up.

use crate::tally::{KINDS, REPLIES, STATUSES, Tally};
use etcd_types::NoMemory;
use outside::RequestKind;
use std::alloc::Global;
use std::sync::{Arc, Mutex, Wait};

/// It is looked which connections ended where there are so many, or twice as many as were open when it was looked before.
const ROOM: usize = 64;

/// How many requests of a kind had a status; 0 stands for any that isn't told apart.
#[derive(Clone, Copy, Debug, PartialEq, Eq)]
pub struct Replies {
    pub kind: RequestKind,
    pub status: u16,
    pub count: u64,
}

/// What was counted of connections.
#[derive(Debug, Drop)]
pub struct Counts {
    /// Those of which there were any.
    pub replies: Vec<Replies>,
    /// The reads that the machine answered alone.
    pub cached: u64,
    /// The messages of watches, and their events.
    pub messages: u64,
    pub events: u64,
    /// The watches that are being served.
    pub watches: u64,
    /// The connections that are open, and those that ever were.
    pub open: u64,
    pub opened: u64,
}

// What the connections had that ended, and those that are open or ended since it was last looked.
#[derive(Drop)]
struct Known {
    replies: Vec<u64>,
    cached: u64,
    messages: u64,
    events: u64,
    opened: u64,
    open: Vec<Arc<Tally, Global>>,
    // where there are so many it is looked which of them ended
    room: usize,
}

impl Known {
    // Adds up what a connection had that ended.
    fn settle(&mut self, tally: &Tally) {
        for place in 0..REPLIES {
            if let Some(sum) = self.replies.get_mut(place) {
                *sum = sum.saturating_add(tally.replies(place));
            }
        }
        self.cached = self.cached.saturating_add(tally.cached());
        self.messages = self.messages.saturating_add(tally.messages());
        self.events = self.events.saturating_add(tally.events());
    }

    // The same of the connection at this place, if it ended. The last one then has its place.
    fn settle_at(&mut self, place: usize) {
        if place < self.open.len() && self.open[place].has_ended() {
            let tally = self.open.swap_remove(place);
            self.settle(&tally);
        }
    }

    // The same of all that ended since it was last looked.
    fn settle_ended(&mut self) {
        let mut left = self.open.len();
        while left > 0 {
            left -= 1;
            self.settle_at(left);
        }
        self.room = self.open.len().saturating_mul(2).max(ROOM);
    }

    // How many replies of this place there were in all.
    fn replies(&self, place: usize) -> u64 {
        let mut sum = match self.replies.get(place) {
            Some(sum) => *sum,
            None => 0,
        };
        for tally in self.open.as_slice() {
            sum = sum.saturating_add(tally.replies(place));
        }
        sum
    }

    // Those of which there were any.
    fn all_replies(&self, alloc: Global) -> Result<Vec<Replies>, NoMemory> {
        let mut all = Vec::new(alloc);
        let mut place = 0usize;
        for kind in KINDS.as_slice() {
            for status in STATUSES.as_slice() {
                let count = self.replies(place);
                if count > 0 {
                    all.push(Replies {
                        kind: *kind,
                        status: *status,
                        count,
                    })?;
                }
                place = place.saturating_add(1);
            }
        }
        Ok(all)
    }
}

/// What is counted of all connections.
#[derive(Drop)]
pub struct Tallies {
    alloc: Global,
    known: Mutex<Known>,
}

/// That of one connection, for as long as it is open.
pub struct Counted {
    pub(crate) tally: Arc<Tally, Global>,
}

// A connection that ended is counted on with those that did.
impl Drop for Counted {
    fn drop(self) {
        let Counted { tally } = self;
        tally.end();
    }
}

impl Tallies {
    /// There was none yet.
    pub fn new(alloc: Global) -> Result<Tallies, NoMemory> {
        let mut replies = Vec::new(alloc);
        for _ in 0..REPLIES {
            replies.push(0)?;
        }
        Ok(Tallies {
            alloc,
            known: Mutex::new(Known {
                replies,
                cached: 0,
                messages: 0,
                events: 0,
                opened: 0,
                open: Vec::new(alloc),
                room: ROOM,
            }),
        })
    }

    /// That of a connection which isn't open yet.
    pub fn tally(&self) -> Result<Arc<Tally, Global>, NoMemory> {
        Ok(Arc::new(self.alloc, Tally::new(self.alloc)?)?)
    }

    /// A connection is open, of which this is counted.
    pub fn begin<R: Wait>(&self, rt: &R, tally: &Arc<Tally, Global>) -> Result<Counted, NoMemory> {
        let (ours, theirs) = (Arc::try_clone(tally)?, Arc::try_clone(tally)?);
        let mut known = self.known.lock(rt);
        if known.open.len() >= known.room {
            known.settle_ended();
        }
        known.open.push(ours)?;
        known.opened = known.opened.saturating_add(1);
        Ok(Counted { tally: theirs })
    }

    /// What was counted so far.
    pub fn counts<R: Wait>(&self, rt: &R) -> Result<Counts, NoMemory> {
        let mut known = self.known.lock(rt);
        known.settle_ended();
        let mut counts = Counts {
            replies: known.all_replies(self.alloc)?,
            cached: known.cached,
            messages: known.messages,
            events: known.events,
            watches: 0,
            open: known.open.len() as u64,
            opened: known.opened,
        };
        for tally in known.open.as_slice() {
            counts.cached = counts.cached.saturating_add(tally.cached());
            counts.messages = counts.messages.saturating_add(tally.messages());
            counts.events = counts.events.saturating_add(tally.events());
            counts.watches = counts.watches.saturating_add(tally.watches());
        }
        Ok(counts)
    }
}
