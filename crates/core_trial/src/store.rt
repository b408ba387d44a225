use etcd_types::{Bytes, Change, Event, Header, KeyRange, Kv, List, NoMemory};
use std::alloc::Global;

/// One of the two keys of a made-up store. Each revision from 2 on puts one of them, which the revision tells: every
/// third one the second key.
#[derive(Clone, Copy, Debug, PartialEq, Eq)]
pub enum Key {
    A,
    B,
}

impl Key {
    fn bytes(self, alloc: Global) -> Result<Bytes, NoMemory> {
        match self {
            Key::A => Bytes::from_slice(alloc, b"a"),
            Key::B => Bytes::from_slice(alloc, b"b"),
        }
    }

    /// The range of this key alone.
    pub fn range(self, alloc: Global) -> Result<KeyRange, NoMemory> {
        Ok(KeyRange {
            key: self.bytes(alloc)?,
            end: Bytes::new(alloc),
        })
    }

    pub fn is_in(self, range: &KeyRange) -> bool {
        match self {
            Key::A => range.key.as_slice() == b"a".as_slice(),
            Key::B => range.key.as_slice() == b"b".as_slice(),
        }
    }

    /// The first revision from this one on that puts the key.
    pub fn put_from(self, revision: u64) -> u64 {
        match (self, revision % 3) {
            (Key::A, 2) | (Key::B, 1) => revision.saturating_add(1),
            (Key::B, 0) => revision.saturating_add(2),
            _ => revision,
        }
    }

    /// The revision of the put of the key before this one, or none where that is the first.
    pub fn put_before(self, revision: u64) -> Option<u64> {
        let back = match (self, revision % 3) {
            (Key::A, 1) => 1,
            (Key::A, _) => 2,
            (Key::B, _) => 3,
        };
        let before = revision.checked_sub(back)?;
        if before < 2 { None } else { Some(before) }
    }

    /// The put at this revision, with the record before it.
    pub fn event(self, alloc: Global, revision: u64) -> Result<Event, NoMemory> {
        let prev = match self.put_before(revision) {
            None => None,
            Some(before) => Some(self.record(alloc, before)?),
        };
        Ok(Event {
            change: Change::Put(self.record(alloc, revision)?),
            prev,
        })
    }

    fn record(self, alloc: Global, revision: u64) -> Result<Kv, NoMemory> {
        Ok(Kv {
            key: self.bytes(alloc)?,
            value: Bytes::from_slice(alloc, b"x")?,
            create: 2,
            modified: revision,
            version: revision,
            lease: 0,
        })
    }

    /// At most so many puts of the key from this revision on, up to the newest.
    pub fn events(
        self,
        alloc: Global,
        from: u64,
        newest: u64,
        most: u64,
    ) -> Result<List<Event>, NoMemory> {
        let mut events = List::new(alloc);
        let mut next = from;
        for _ in 0..most {
            let revision = self.put_from(next);
            if revision > newest {
                break;
            }
            events.push(self.event(alloc, revision)?)?;
            next = revision.saturating_add(1);
        }
        Ok(events)
    }
}

pub fn header_at(revision: u64) -> Header {
    Header {
        cluster: 1,
        member: 1,
        revision,
        term: 1,
    }
}

/// The revision of the last event, or 0.
pub fn last_of(events: &List<Event>) -> u64 {
    let mut last = 0;
    for event in events.as_slice() {
        last = revision_of(event);
    }
    last
}

pub fn revision_of(event: &Event) -> u64 {
    match &event.change {
        Change::Put(kv) => kv.modified,
        Change::Delete { modified, .. } => *modified,
    }
}
