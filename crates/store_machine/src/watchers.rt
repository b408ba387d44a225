// The watches that were opened or asked for a message within one period, and in which lots they rest. No clause speaks of it.

use crate::lots::{Lots, lot_of_watch};
use etcd_types::{Bytes, KeyRange, NoMemory};
use std::alloc::Global;
use std::collections::{BTreeMap, BTreeSet};

/// The watches of one period.
#[derive(Drop)]
pub(crate) struct Watchers {
    alloc: Global,
    numbers: BTreeSet<u64>,
    /// The lots of those of one key.
    keys: BTreeMap<Bytes, Lots>,
    /// The lots of those of more keys.
    ranges: BTreeMap<KeyRange, Lots>,
    /// Whether memory was wanting to note a watch.
    unknown: bool,
}

impl Watchers {
    pub(crate) fn new(alloc: Global) -> Watchers {
        Watchers {
            alloc,
            numbers: BTreeSet::new(alloc),
            keys: BTreeMap::new(alloc),
            ranges: BTreeMap::new(alloc),
            unknown: false,
        }
    }

    /// Whether the watch of this number is among them.
    pub(crate) fn has(&self, number: u64) -> bool {
        self.numbers.contains(&number)
    }

    /// Notes that a watch follows the range.
    pub(crate) fn follow(&mut self, number: u64, range: &KeyRange) {
        let noted = if range.is_one() {
            self.follow_key(number, &range.key)
        } else {
            self.follow_range(number, range)
        };
        if noted.is_err() {
            self.unknown = true;
        }
    }

    fn follow_key(&mut self, number: u64, key: &Bytes) -> Result<(), NoMemory> {
        let mut lots = self.keys.get(key).copied().unwrap_or(Lots::none());
        lots.add(lot_of_watch(number));
        let key = key.copy(self.alloc)?;
        self.keys.insert(key, lots)?;
        self.numbers.insert(number)?;
        Ok(())
    }

    fn follow_range(&mut self, number: u64, range: &KeyRange) -> Result<(), NoMemory> {
        let mut lots = self.ranges.get(range).copied().unwrap_or(Lots::none());
        lots.add(lot_of_watch(number));
        let range = range.copy(self.alloc)?;
        self.ranges.insert(range, lots)?;
        self.numbers.insert(number)?;
        Ok(())
    }

    /// The lots in which those rest that follow the key. None where memory was wanting to note one of them.
    pub(crate) fn lots_of(&self, key: &Bytes) -> Option<Lots> {
        if self.unknown {
            return None;
        }
        let mut lots = self.keys.get(key).copied().unwrap_or(Lots::none());
        for (range, followers) in &self.ranges {
            if range.contains(key) {
                lots.add_all(followers);
            }
        }
        Some(lots)
    }
}
