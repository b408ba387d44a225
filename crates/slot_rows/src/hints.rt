//! Where the row of a key may lie, by a number that is made of the key. A hint may be wrong or wanting: whoever takes one looks at
//! the row, so nothing is promised of what stands here.

use etcd_types::{Bytes, NoMemory};
use std::alloc::Global;

/// The slot of a row, beside half of the number of the row's key.
#[derive(Debug, Clone, Copy, Drop)]
pub(crate) struct Hint {
    half: u32,
    slot: u32,
}

/// No row lies in the last slot.
const NO_ROW: u32 = u32::MAX;

const NO_HINT: Hint = Hint {
    half: 0,
    slot: NO_ROW,
};

/// Hints at keys whose numbers have one other half: as many as a line of a cache holds.
#[derive(Debug, Clone, Copy, Drop)]
struct Bucket {
    hints: [Hint; 8],
}

const EMPTY: Bucket = Bucket {
    hints: [NO_HINT; 8],
};

/// So many rows have a bucket in common, where all that there is room for are there.
const SHARE: u64 = 4;

/// One more than the greatest half of a number.
const HALF: u64 = 4294967296;

#[derive(Debug, Drop)]
pub(crate) struct Hints {
    /// As many as a power of two tells, or none.
    buckets: Vec<Bucket>,
}

impl Hint {
    /// The slot, where it is a hint at a key of this number, or else one in which no row lies.
    pub(crate) fn slot_of(&self, number: u64) -> u32 {
        if self.half == half(number) {
            self.slot
        } else {
            NO_ROW
        }
    }
}

impl Hints {
    /// None. It takes no memory.
    pub(crate) fn new(alloc: Global) -> Hints {
        Hints {
            buckets: Vec::new(alloc),
        }
    }

    /// None, for so many rows.
    pub(crate) fn for_rows(alloc: Global, count: u64) -> Result<Hints, NoMemory> {
        let shares = (count / SHARE + 1).next_power_of_two();
        let buckets = vec![in alloc; EMPTY; shares as usize]?;
        Ok(Hints { buckets })
    }

    /// For how many rows they were made.
    pub(crate) fn room(&self) -> u64 {
        (self.buckets.len() as u64).saturating_mul(SHARE)
    }

    /// Those that may be at a key of this number.
    pub(crate) fn at(&self, number: u64) -> &[Hint] {
        match self.buckets.get(self.bucket(number)) {
            Some(bucket) => &bucket.hints,
            None => &[],
        }
    }

    /// The slot that a hint at keys of this number names first, or one in which no row lies.
    pub(crate) fn slot_at(&self, number: u64) -> u32 {
        for hint in self.at(number) {
            let slot = hint.slot_of(number);
            if slot != NO_ROW {
                return slot;
            }
        }
        NO_ROW
    }

    /// The row of a key of this number lies in this slot. Where the bucket is full another key loses its hint.
    pub(crate) fn put(&mut self, number: u64, slot: u32) {
        let bucket = self.bucket(number);
        if let Some(bucket) = self.buckets.get_mut(bucket) {
            bucket.put(Hint {
                half: half(number),
                slot,
            });
        }
    }

    /// The row of a key of this number lies no longer in this slot.
    pub(crate) fn forget(&mut self, number: u64, slot: u32) {
        let bucket = self.bucket(number);
        if let Some(bucket) = self.buckets.get_mut(bucket) {
            bucket.forget(half(number), slot);
        }
    }

    /// There are no rows.
    pub(crate) fn clear(&mut self) {
        for bucket in self.buckets.iter_mut() {
            *bucket = EMPTY;
        }
    }

    /// Which bucket has the hints at keys of this number.
    fn bucket(&self, number: u64) -> usize {
        let last = (self.buckets.len() as u64).wrapping_sub(1);
        ((number / HALF) & last) as usize
    }
}

impl Bucket {
    fn put(&mut self, hint: Hint) {
        for old in self.hints.iter_mut() {
            if old.slot == NO_ROW {
                *old = hint;
                return;
            }
        }
        self.hints[0] = hint;
    }

    fn forget(&mut self, half: u32, slot: u32) {
        for old in self.hints.iter_mut() {
            if old.half == half && old.slot == slot {
                *old = NO_HINT;
            }
        }
    }
}

/// The lower half of the number.
fn half(number: u64) -> u32 {
    (number % HALF) as u32
}

/// A number for the key: the hash FNV-1a of 64 bits, and its halves mixed once more.
pub(crate) fn key_number(key: &Bytes) -> u64 {
    let mut number: u64 = 14695981039346656037;
    for byte in key.as_slice() {
        number = (number ^ u64::from(*byte)).wrapping_mul(1099511628211);
    }
    number.wrapping_mul(11400714819323198485)
}
