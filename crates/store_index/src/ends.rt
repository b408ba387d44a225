ghost use Rattle.std.specs.Prelude.{◌≡◌, ◌≤◌, ◌<◌, ◌+◌, ◌-◌, [], ◌∷◌, ◌++◌, length, take, drop, OnOk, OnErr};
ghost use Rattle.store_index.specs.Parts.{last_end};

use etcd_types::NoMemory;
use std::alloc::Global;
use std::marker::Model;

/// Where the parts of a list end that is kept in one piece, counted from a start that grows where first parts were dropped.
/// Contracts see it as the start and the list of ends.
#[derive(Debug, Drop)]
pub(crate) struct Ends {
    start: usize,
    ends: Vec<usize>,
}

impl Model for Ends {
    ghost use Rattle.std.specs.Prelude.{List, ℕ};

    ghost Value = { ℕ × List ℕ };

    ghost view = { λ e. (e.start, e.ends.items) };
}

impl Ends {
    /// No part. It takes no memory.
    pub(crate) fn new(alloc: Global) -> Ends
        ensures { result ≡ (0, []) }
    {
        Ends {
            start: 0,
            ends: Vec::new(alloc),
        }
    }

    /// How many parts there are.
    pub(crate) fn len(&self) -> usize
        ensures { result ≡ length self.now.1 }
    {
        self.ends.len()
    }

    /// Where so many of the first parts end.
    pub(crate) fn after(&self, count: usize) -> usize
        requires { count ≤ length self.now.1 }
        ensures { result ≡ last_end self.now.0 (take count self.now.1) }
    {
        let ends = self.ends.as_slice();
        if count == 0 {
            self.start
        } else {
            ends[count - 1]
        }
    }

    /// How long so many of the first parts are together.
    pub(crate) fn length(&self, count: usize) -> usize
        requires { count ≤ length self.now.1 }
        ensures { result ≡ last_end self.now.0 (take count self.now.1) - self.now.0 }
    {
        self.after(count).saturating_sub(self.start)
    }

    /// How long the parts up to the one at this place are together.
    pub(crate) fn through(&self, place: usize) -> usize
        requires { place < length self.now.1 }
        ensures { result ≡ last_end self.now.0 (take (place + 1) self.now.1) - self.now.0 }
    {
        let ends = self.ends.as_slice();
        ends[place].saturating_sub(self.start)
    }

    /// Adds a part of this length. Where memory was wanting all is as before, and also where more than 64 bits can count was
    /// ever added.
    pub(crate) fn push(&mut self, length: usize) -> Result<(), NoMemory>
        ensures ok { OnOk result (self.new ≡ (self.old.0, self.old.1 ++ (last_end self.old.0 self.old.1 + length) ∷ [])) }
        ensures err { OnErr result (self.new ≡ self.old) }
    {
        match self.after(self.ends.len()).checked_add(length) {
            Some(end) => {
                self.ends.push(end)?;
                Ok(())
            }
            None => Err(NoMemory),
        }
    }

    /// Leaves so many of the first parts.
    pub(crate) fn truncate(&mut self, count: usize)
        ensures { self.new ≡ (self.old.0, take count self.old.1) }
    {
        self.ends.truncate(count);
    }

    /// Drops so many of the first parts, and gives their memory back.
    pub(crate) fn drop_first(&mut self, count: usize)
        requires { count ≤ length self.old.1 }
        ensures { self.new ≡ (last_end self.old.0 (take count self.old.1), drop count self.old.1) }
    {
        self.start = self.after(count);
        drop_front(&mut self.ends, count);
    }
}

/// Drops so many of the first items, and gives their memory back.
pub(crate) fn drop_front<T: Drop>(items: &mut Vec<T>, count: usize)
    requires { count ≤ length items.old.items }
    ensures { items.new.items ≡ drop count items.old.items }
{
    let left = items.len() - count;
    items.as_mut_slice().rotate_left(count);
    items.truncate(left);
    items.shrink_to_fit();
}
