//! Rows that lie in slots, and the slots in the order of the rows' keys.

ghost use Rattle.std.specs.Prelude.{◌≡◌, ◌+◌, ◌-◌, ◌<◌, ◌≤◌, ◌^◌, IsTrue, Some, None, [], length, OnOk, OnErr, IfOk, IfErr, IfSome, slice_index_or, vec_len};
ghost use Rattle.std.specs.List.{insert, remove};
ghost use Rattle.std.specs.Option.{option_copied};
ghost use Rattle.std.specs.Vec.{vec_capacity};
ghost use Rattle.keyed_rows.specs.Places.{IsPlace, IsGap};
ghost use Rattle.proxy_model.specs.Keyed.{at, changed_at, is_in_order};
ghost use Rattle.slot_rows.specs.Roomy.{no_rows, changed_in};
ghost use Rattle.slot_rows.specs.Slots.{gathered, IsKept, order_at};

use crate::change::Change;
use crate::hints::{Hints, key_number};
use etcd_types::{Bytes, NoMemory};
use std::alloc::Global;
use std::cmp::Ordering;
use std::marker::Model;

/// How many slots there may be: the last number of 32 bits is no slot.
const SLOTS: u64 = 4294967295;

/// The row that lay in the last slot lies in this one now, which may be the same.
#[derive(Debug, Clone, Copy)]
pub(crate) struct Moved {
    pub(crate) last: u32,
    pub(crate) slot: u32,
}

#[derive(Debug, Drop)]
pub(crate) struct Slots<V> {
    /// In no order of their own: where a row lies here is its slot.
    rows: Vec<(Bytes, V)>,
    /// The slots, in the order of their rows' keys.
    order: Vec<u32>,
    /// For how many more rows there is room.
    spare: usize,
}

impl<V> Model for Slots<V> {
    ghost use Rattle.std.specs.Prelude.{vec_len};
    ghost use Rattle.std.specs.Vec.{vec_capacity};
    ghost use Rattle.slot_rows.specs.Roomy.{Roomy, roomy_code};
    ghost use Rattle.slot_rows.specs.Slots.{gathered, IsRoomy};

    ghost Value = { Roomy V };

    ghost coded = { roomy_code V.code };

    ghost view = { λ s. record { rows = gathered s.rows.items s.order.items; spare = s.spare } };

    ghost invariant = { λ s. IsRoomy s.rows.items s.order.items (vec_len s.rows) (vec_capacity s.rows) (vec_len s.order) (vec_capacity s.order) s.spare };
}

impl<V> Slots<V> {
    /// No rows. It takes no memory.
    pub(crate) fn new(alloc: Global) -> Slots<V>
        ensures { result ≡ no_rows }
    {
        Slots {
            rows: Vec::new(alloc),
            order: Vec::new(alloc),
            spare: 0,
        }
    }

    pub(crate) fn len(&self) -> usize
        ensures all { result ≡ length self.now.rows }
        ensures in_order { IsTrue (is_in_order self.now.rows) }
        ensures most { length self.now.rows + self.now.spare < 2 ^ 32 }
    {
        self.order.len()
    }

    pub(crate) fn spare(&self) -> usize
        ensures { result ≡ self.now.spare }
    {
        self.spare
    }

    /// The row at this place in the order of the keys.
    pub(crate) fn row(&self, place: usize) -> &(Bytes, V)
        requires { place < length self.now.rows }
        ensures { result.now ≡ slice_index_or self.now.rows place result.now }
    {
        &self.rows[self.order[place] as usize]
    }

    /// Where the key's row is in the order of the keys, or where it would go.
    pub(crate) fn place(&self, key: &Bytes) -> Result<usize, usize>
        ensures found { IfOk result (IsPlace self.now.rows key.now) }
        ensures in_range { IfOk result (λ place. place < length self.now.rows) }
        ensures up_to_end { IfErr result (λ gap. gap ≤ length self.now.rows) }
        ensures absent { IfErr result (IsGap self.now.rows key.now) }
    {
        place_in(&self.rows, &self.order, key)
    }

    /// What is kept at the key.
    pub(crate) fn find(&self, key: &Bytes) -> Option<&V>
        ensures { option_copied result ≡ at self.now.rows key.now }
    {
        // For the prover: the rows are in the order of their keys.
        let _count = self.len();
        match self.place(key) {
            Ok(place) => Some(&self.row(place).1),
            Err(_) => None,
        }
    }

    /// What is kept at the key, where its row lies in this slot.
    pub(crate) fn value_of(&self, slot: u32, key: &Bytes) -> Option<&V>
        ensures { IfSome result (λ value. Some value.now ≡ at self.now.rows key.now) }
    {
        let slot = slot as usize;
        if slot < self.rows.len() && self.rows[slot].0 == *key {
            Some(&self.rows[slot].1)
        } else {
            None
        }
    }

    /// The key of the row that lies in this slot.
    pub(crate) fn key_of(&self, slot: u32) -> Option<&Bytes> {
        match self.rows.get(slot as usize) {
            Some(row) => Some(&row.0),
            None => None,
        }
    }

    /// Hints at each row.
    pub(crate) fn show_to(&self, hints: &mut Hints) {
        for (slot, row) in self.rows.iter().enumerate() {
            hints.put(key_number(&row.0), slot as u32);
        }
    }
}

impl<V: Drop> Slots<V> {
    /// Makes room for that many more rows. Where memory was wanting all is as before.
    pub(crate) fn reserve(&mut self, count: u64) -> Result<(), NoMemory>
        ensures rows { self.new.rows ≡ self.old.rows }
        ensures spare { self.old.spare ≤ self.new.spare }
        ensures most { length self.new.rows + self.new.spare < 2 ^ 32 }
        ensures ok { OnOk result (count ≤ self.new.spare) }
        ensures err { OnErr result (self.new ≡ self.old) }
    {
        if count <= self.spare as u64 {
            return Ok(());
        }
        if count > SLOTS - self.rows.len() as u64 {
            return Err(NoMemory);
        }
        let count = count as usize;
        self.rows.reserve(count)?;
        self.order.reserve(count)?;
        self.spare = count;
        Ok(())
    }

    /// Adds a row in the gap for its key, in the room that was made. It says in which slot the row lies.
    pub(crate) fn insert(&mut self, gap: usize, key: Bytes, value: V) -> u32
        requires room { 1 ≤ self.old.spare }
        requires in_range { gap ≤ length self.old.rows }
        requires absent { IsGap self.old.rows key gap }
        ensures rows { self.new.rows ≡ insert self.old.rows gap (key, value) }
        ensures spare { self.new.spare + 1 ≡ self.old.spare }
    {
        let slot = self.rows.len() as u32;
        self.rows.push_reserved((key, value));
        self.order.insert(gap, slot).unwrap();
        self.spare -= 1;
        slot
    }

    /// What is kept at this place is changed.
    pub(crate) fn change<C: Change<V>>(&mut self, place: usize, change: C)
        requires { place < length self.old.rows }
        ensures rows { self.new.rows ≡ changed_in self.old.rows place (C.changed change) }
        ensures spare { self.new.spare ≡ self.old.spare }
    {
        let slot = self.order[place] as usize;
        change.apply(&mut self.rows[slot].1);
    }

    /// What is kept at the key is changed, where there is a row. The slot of a hint is looked at first.
    pub(crate) fn change_at<C: Change<V> + Drop>(&mut self, hint: u32, key: &Bytes, change: C)
        ensures rows { self.new.rows ≡ changed_at self.old.rows key.now (C.changed change) }
        ensures spare { self.new.spare ≡ self.old.spare }
    {
        // For the prover: the rows are in the order of their keys.
        let _count = self.len();
        let near = hint as usize;
        if near < self.rows.len() && self.rows[near].0 == *key {
            change.apply(&mut self.rows[near].1);
        } else if let Ok(place) = self.place(key) {
            self.change(place, change);
        }
    }

    /// Takes out the row at this place. The row in the last slot moves to its slot, so that the rows lie side by side.
    pub(crate) fn remove(&mut self, place: usize) -> (Moved, (Bytes, V))
        requires { place < length self.old.rows }
        ensures row { result.1 ≡ slice_index_or self.old.rows place result.1 }
        ensures rows { self.new.rows ≡ remove self.old.rows place }
        ensures spare { self.new.spare ≡ self.old.spare + 1 }
    {
        let last_place = place_of_last(&self.rows, &self.order);
        let slot = self.order[place];
        let last = self.order[last_place];
        self.order.swap(place, last_place);
        self.order.remove(place);
        self.rows.swap(slot as usize, last as usize);
        self.spare += 1;
        (Moved { last, slot }, self.rows.take_last())
    }

    /// Lets go of all rows.
    pub(crate) fn clear(&mut self)
        ensures rows { self.new.rows ≡ [] }
        ensures spare { self.new.spare ≡ self.old.spare + length self.old.rows }
    {
        self.spare += self.rows.len();
        self.rows.clear();
        self.order.clear();
    }
}

/// Where the key's row is in the order of the keys, or where it would go.
fn place_in<V>(rows: &[(Bytes, V)], order: &[u32], key: &Bytes) -> Result<usize, usize>
    requires { IsKept rows.now order.now }
    ensures found { IfOk result (IsPlace (gathered rows.now order.now) key.now) }
    ensures in_range { IfOk result (λ place. place < length (gathered rows.now order.now)) }
    ensures up_to_end { IfErr result (λ gap. gap ≤ length (gathered rows.now order.now)) }
    ensures absent { IfErr result (IsGap (gathered rows.now order.now) key.now) }
{
    order.binary_search_by(
        |slot: &u32| -> Ordering
            ensures { result ≡ order_at rows.entry.now key.entry.now slot.now }
        { order_at(rows, key, *slot as usize) },
    )
}

/// How the key of the row in this slot stands to the key.
fn order_at<V>(rows: &[(Bytes, V)], key: &Bytes, slot: usize) -> Ordering
    ensures { result ≡ order_at rows.now key.now slot }
{
    match rows.get(slot) {
        Some(row) => row.0.cmp(key),
        None => Ordering::Less,
    }
}

/// The place of the row that lies in the last slot.
fn place_of_last<V>(rows: &[(Bytes, V)], order: &[u32]) -> usize
    requires kept { IsKept rows.now order.now }
    requires some { 0 < length rows.now }
    ensures in_range { result < length order.now }
    ensures last { slice_index_or order.now result 0 + 1 ≡ length rows.now }
{
    match place_in(rows, order, &rows[rows.len() - 1].0) {
        Ok(place) => place,
        Err(_) => unreachable!(),
    }
}
