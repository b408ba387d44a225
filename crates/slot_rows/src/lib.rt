//! What is kept by key, in the order of the keys: a row stays where it lies while others come and go, and is mostly found at once,
//! by a number that is made of its key.
//!
//! Contracts see the rows in the order of their keys, beside the number of rows for which there is room. Room is made first, by
//! `reserve`, so that a row can be added where no memory may be wanting.
#![tactic(auto)]

ghost use Rattle.std.specs.Prelude.{◌≡◌, ◌+◌, ◌-◌, ◌<◌, ◌≤◌, ◌^◌, IsTrue, Some, None, [], length, OnOk, OnErr, IfOk, IfErr, IfSome, slice_index_or};
ghost use Rattle.std.specs.List.{insert, remove};
ghost use Rattle.std.specs.Option.{option_copied};
ghost use Rattle.keyed_rows.specs.Places.{IsPlace, IsGap};
ghost use Rattle.proxy_model.specs.Keyed.{at, changed_at, is_in_order};
ghost use Rattle.slot_rows.specs.Roomy.{no_rows, changed_in};

mod change;
mod hints;
mod slots;

pub use crate::change::Change;
use crate::hints::{Hints, key_number};
use crate::slots::Slots;
use etcd_types::{Bytes, NoMemory};
use std::alloc::Global;
use std::marker::Model;

/// A value for each of some keys.
#[derive(Debug, Drop)]
pub struct SlotRows<V> {
    slots: Slots<V>,
    hints: Hints,
    alloc: Global,
}

impl<V> Model for SlotRows<V> {
    ghost use Rattle.slot_rows.specs.Roomy.{Roomy, roomy_code};

    ghost Value = { Roomy V };

    ghost coded = { roomy_code V.code };

    ghost view = { λ r. r.slots };
}

impl<V> SlotRows<V> {
    /// No rows. It takes no memory.
    pub fn new(alloc: Global) -> SlotRows<V>
        ensures { result ≡ no_rows }
    {
        SlotRows {
            slots: Slots::new(alloc),
            hints: Hints::new(alloc),
            alloc,
        }
    }

    /// How many rows there are.
    pub fn len(&self) -> usize
        ensures all { result ≡ length self.now.rows }
        ensures in_order { IsTrue (is_in_order self.now.rows) }
        ensures most { length self.now.rows + self.now.spare < 2 ^ 32 }
    {
        self.slots.len()
    }

    /// For how many more rows there is room.
    pub fn spare(&self) -> usize
        ensures { result ≡ self.now.spare }
    {
        self.slots.spare()
    }

    /// The row at this place in the order of the keys.
    pub fn row(&self, place: usize) -> &(Bytes, V)
        requires { place < length self.now.rows }
        ensures { result.now ≡ slice_index_or self.now.rows place result.now }
    {
        self.slots.row(place)
    }

    /// Where the key's row is in the order of the keys, or where it would go. It takes logarithmic time.
    pub fn place(&self, key: &Bytes) -> Result<usize, usize>
        ensures found { IfOk result (IsPlace self.now.rows key.now) }
        ensures in_range { IfOk result (λ place. place < length self.now.rows) }
        ensures up_to_end { IfErr result (λ gap. gap ≤ length self.now.rows) }
        ensures absent { IfErr result (IsGap self.now.rows key.now) }
    {
        self.slots.place(key)
    }

    /// What is kept at the key. It mostly takes constant time, and logarithmic time where no hint helps or there is no row.
    pub fn find(&self, key: &Bytes) -> Option<&V>
        ensures { option_copied result ≡ at self.now.rows key.now }
    {
        match self.hinted(key) {
            Some(value) => Some(value),
            None => self.slots.find(key),
        }
    }

    /// What is kept at the key, where a hint tells its slot: most keys have one.
    pub fn hinted(&self, key: &Bytes) -> Option<&V>
        ensures { IfSome result (λ value. Some value.now ≡ at self.now.rows key.now) }
    {
        let number = key_number(key);
        for hint in self.hints.at(number) {
            if let Some(value) = self.slots.value_of(hint.slot_of(number), key) {
                return Some(value);
            }
        }
        None
    }
}

impl<V: Drop> SlotRows<V> {
    /// Makes room for that many more rows. Where memory was wanting all is as before.
    pub fn reserve(&mut self, count: u64) -> Result<(), NoMemory>
        ensures rows { self.new.rows ≡ self.old.rows }
        ensures spare { self.old.spare ≤ self.new.spare }
        ensures most { length self.new.rows + self.new.spare < 2 ^ 32 }
        ensures ok { OnOk result (count ≤ self.new.spare) }
        ensures err { OnErr result (self.new ≡ self.old) }
    {
        self.hint_at_more(count)?;
        self.slots.reserve(count)
    }

    /// Adds a row in the gap for its key, in the room that was made.
    pub fn insert(&mut self, gap: usize, key: Bytes, value: V)
        requires room { 1 ≤ self.old.spare }
        requires in_range { gap ≤ length self.old.rows }
        requires absent { IsGap self.old.rows key gap }
        ensures rows { self.new.rows ≡ insert self.old.rows gap (key, value) }
        ensures spare { self.new.spare + 1 ≡ self.old.spare }
    {
        let number = key_number(&key);
        let slot = self.slots.insert(gap, key, value);
        self.hints.put(number, slot);
    }

    /// What is kept at this place is changed.
    pub fn change<C: Change<V>>(&mut self, place: usize, change: C)
        requires { place < length self.old.rows }
        ensures rows { self.new.rows ≡ changed_in self.old.rows place (C.changed change) }
        ensures spare { self.new.spare ≡ self.old.spare }
    {
        self.slots.change(place, change);
    }

    /// What is kept at the key is changed, where there is a row. It mostly takes constant time, and logarithmic time where no hint helps
    /// or there is no row.
    pub fn change_at<C: Change<V> + Drop>(&mut self, key: &Bytes, change: C)
        ensures rows { self.new.rows ≡ changed_at self.old.rows key.now (C.changed change) }
        ensures spare { self.new.spare ≡ self.old.spare }
    {
        let slot = self.hints.slot_at(key_number(key));
        self.slots.change_at(slot, key, change);
    }

    /// Takes out the row at this place. There is room for as many in all as before.
    pub fn remove(&mut self, place: usize) -> (Bytes, V)
        requires { place < length self.old.rows }
        ensures row { result ≡ slice_index_or self.old.rows place result }
        ensures rows { self.new.rows ≡ remove self.old.rows place }
        ensures spare { self.new.spare ≡ self.old.spare + 1 }
    {
        let (moved, row) = self.slots.remove(place);
        self.hints.forget(key_number(&row.0), moved.slot);
        if let Some(key) = self.slots.key_of(moved.slot) {
            let number = key_number(key);
            self.hints.forget(number, moved.last);
            self.hints.put(number, moved.slot);
        }
        row
    }

    /// Lets go of all rows. There is room for as many in all as before.
    pub fn clear(&mut self)
        ensures rows { self.new.rows ≡ [] }
        ensures spare { self.new.spare ≡ self.old.spare + length self.old.rows }
    {
        self.slots.clear();
        self.hints.clear();
    }

    /// Makes hints for the rows and as many more, where there are fewer.
    fn hint_at_more(&mut self, count: u64) -> Result<(), NoMemory>
        ensures same { self.new ≡ self.old }
        ensures most { length self.new.rows + self.new.spare < 2 ^ 32 }
    {
        let wanted = count.saturating_add(self.slots.len() as u64);
        if self.hints.room() < wanted {
            let mut hints = Hints::for_rows(self.alloc, wanted)?;
            self.slots.show_to(&mut hints);
            self.hints = hints;
        }
        Ok(())
    }
}
