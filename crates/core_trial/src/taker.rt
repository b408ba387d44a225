use crate::store::{Key, revision_of};
use etcd_types::{Event, Header, WatchItem};

/// Who takes a watch's items, and what it is to be told next.
#[derive(Clone, Copy, Debug)]
pub struct Taker {
    pub ticket: u64,
    pub key: Key,
    /// As it was asked for.
    pub start: u64,
    pub prev: bool,
    pub progress: bool,
    /// The revision from which on it hasn't had the events, or 0 before its created item.
    pub next: u64,
    pub ended: bool,
}

impl Taker {
    /// Whether the item is the right one. All puts of the key come, each once and in order, behind the created item.
    pub fn takes(&mut self, item: &WatchItem) -> bool {
        match item {
            WatchItem::Created(header) => self.begins(header),
            WatchItem::Events { header, events } => {
                if self.next == 0 {
                    return false;
                }
                match events.as_slice() {
                    [] => self.progress && self.key.put_from(self.next) > header.revision,
                    events => self.goes_on(events),
                }
            }
            WatchItem::Canceled { compact, .. } => {
                self.ended = true;
                self.next.max(self.start) < *compact
            }
        }
    }

    fn begins(&mut self, header: &Header) -> bool {
        let is_first = self.next == 0;
        self.next = if self.start == 0 {
            header.revision.saturating_add(1)
        } else {
            self.start
        };
        is_first
    }

    fn goes_on(&mut self, events: &[Event]) -> bool {
        let mut right = true;
        for event in events {
            let revision = revision_of(event);
            right = right && revision == self.key.put_from(self.next) && self.is_shown(event);
            self.next = revision.saturating_add(1);
        }
        right
    }

    /// The record before the change comes where it was asked for.
    fn is_shown(&self, event: &Event) -> bool {
        let before = if self.prev {
            self.key.put_before(revision_of(event))
        } else {
            None
        };
        match &event.prev {
            None => before.is_none(),
            Some(kv) => before == Some(kv.modified),
        }
    }

    /// Whether it hasn't had all puts up to the newest.
    pub fn is_behind(&self, newest: u64) -> bool {
        !self.ended && (self.next == 0 || self.key.put_from(self.next) <= newest)
    }
}
