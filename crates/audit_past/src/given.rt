// The newest header that a proxy was given.

use crate::marks::{Kind, Mark, mark_of};
use crate::traces::{Trace, last};
use etcd_types::NoMemory;
use replay_parts::Numbers;
use script_text::Item;
use std::alloc::Global;

/// A header that a proxy was given: the place of the item that gave it, and its revision.
#[derive(Clone, Copy)]
pub struct Newest {
    pub place: usize,
    pub revision: u64,
}

fn newer(newest: Option<Newest>, place: usize, revision: u64) -> Option<Newest> {
    let is_newer = match newest {
        Some(other) => other.revision < revision,
        None => true,
    };
    if is_newer {
        Some(Newest { place, revision })
    } else {
        newest
    }
}

/// Counts a message of a stream more.
fn count_more(counts: &mut Numbers<u64>, stream: u64) -> Result<u64, NoMemory> {
    let count = counts.find(stream).copied().unwrap_or(0).saturating_add(1);
    counts.put(stream, count)?;
    Ok(count)
}

/// What a proxy was given.
#[derive(Drop)]
struct Given {
    proxy: u64,
    /// The revisions of the answers to its calls, by the calls' numbers.
    revisions: Numbers<u64>,
    /// How many messages of each of its streams were delivered.
    delivered: Numbers<u64>,
    /// How many messages were pushed into each stream.
    pushed: Numbers<u64>,
    newest: Option<Newest>,
}

impl Given {
    fn new(alloc: Global, proxy: u64) -> Given {
        Given {
            proxy,
            revisions: Numbers::<u64>::new(alloc),
            delivered: Numbers::<u64>::new(alloc),
            pushed: Numbers::<u64>::new(alloc),
            newest: None,
        }
    }

    fn keep(&mut self, place: usize, revision: u64) {
        self.newest = newer(self.newest, place, revision);
    }

    /// The proxy sends a call or opens a stream.
    fn begin(&mut self, mark: Mark) -> Result<(), NoMemory> {
        if mark.proxy != self.proxy {
            return Ok(());
        }
        match mark.kind {
            Kind::Sent => self.revisions.put(mark.number, 0),
            _ => self.delivered.put(mark.number, 0),
        }
    }

    /// A call is executed.
    fn execute(&mut self, mark: Mark) -> Result<(), NoMemory> {
        if self.revisions.find(mark.number).is_some() {
            self.revisions.put(mark.number, mark.revision)?;
        }
        Ok(())
    }

    /// A message of a stream is delivered.
    fn deliver(&mut self, stream: u64) -> Result<(), NoMemory> {
        if self.delivered.find(stream).is_some() {
            let _count = count_more(&mut self.delivered, stream)?;
        }
        Ok(())
    }

    /// A call is answered.
    fn answer(&mut self, place: usize, call: u64) {
        if let Some(revision) = self.revisions.find(call).copied() {
            self.keep(place, revision);
        }
    }

    /// Goes on through the proxy's calls and streams.
    fn follow(&mut self, place: usize, mark: Mark) -> Result<(), NoMemory> {
        match mark.kind {
            Kind::Sent => self.begin(mark),
            Kind::Opened => self.begin(mark),
            Kind::Executed => self.execute(mark),
            Kind::Delivered => self.deliver(mark.number),
            Kind::Answered => {
                self.answer(place, mark.number);
                Ok(())
            }
            _ => Ok(()),
        }
    }

    /// Takes the answers that the proxy was given from this place on, and counts the messages.
    fn follow_all(&mut self, items: &[Item], start: usize) -> Result<(), NoMemory> {
        for (place, item) in items.iter().enumerate() {
            if start <= place {
                self.follow(place, mark_of(item))?;
            }
        }
        Ok(())
    }

    /// A message is pushed: where it is its stream's last one that was delivered, it has the newest header of that.
    fn push(&mut self, place: usize, mark: Mark) -> Result<(), NoMemory> {
        let number = count_more(&mut self.pushed, mark.number)?;
        if self.delivered.find(mark.number).copied() == Some(number) {
            self.keep(place, mark.revision);
        }
        Ok(())
    }

    /// Takes the messages that were delivered.
    fn push_all(&mut self, items: &[Item]) -> Result<(), NoMemory> {
        for (place, item) in items.iter().enumerate() {
            let mark = mark_of(item);
            if mark.kind == Kind::Pushed {
                self.push(place, mark)?;
            }
        }
        Ok(())
    }

    /// The newest header of all.
    fn newest_of(&mut self, items: &[Item], start: usize) -> Result<Option<Newest>, NoMemory> {
        self.follow_all(items, start)?;
        self.push_all(items)?;
        Ok(self.newest)
    }
}

/// The newest header that the proxy was given in the life that it has now.
pub fn newest_given(alloc: Global, items: &[Item], proxy: u64) -> Result<Option<Newest>, NoMemory> {
    match last(Trace::Begins(proxy), items) {
        Some(start) => Given::new(alloc, proxy).newest_of(items, start),
        None => Ok(None),
    }
}
