//! What is kept by key, in the order of the keys, and found in logarithmic time.
#![tactic(auto)]

ghost use Rattle.std.specs.Prelude.{◌≡◌, ℕ, ◌<◌, ◌≤◌, Bool, IsTrue, ◌||◌, true, not, List, filter, None, Some, OnOk, OnErr, length, [], IfOk, IfErr};
ghost use Rattle.std.specs.Ordering.{nat_cmp};
ghost use Rattle.std.specs.Cmp.Lexicographic.{slice_cmp};
ghost use Rattle.std.specs.Option.{option_copied};
ghost use Rattle.keyed_rows.specs.Places.{IsPlace, IsGap, raised_in};
ghost use Rattle.proxy_model.specs.Keyed.{at, with_at, changed_at, is_in_order};
ghost use Rattle.wait_model.specs.Covers.{covered};
ghost use Rattle.wait_model.specs.Edits.{each};

use etcd_types::{Bytes, KeyRange, NoMemory};
use std::alloc::Global;
use std::cmp::Ordering;
use std::marker::Model;

/// A test of a key and what is kept there.
pub trait RowTest<V> {
    ghost passes: { Self → List ℕ → V → Bool };

    fn passes(&self, key: &Bytes, value: &V) -> bool
        ensures { result ≡ passes self.now key.now value.now };
}

/// A value for each of some keys.
#[derive(Debug, Drop)]
pub struct Rows<V> {
    rows: Vec<(Bytes, V)>,
}

impl<V> Model for Rows<V> {
    ghost use Rattle.std.specs.Prelude.{IsTrue};
    ghost use Rattle.std.specs.Coded.{coded_list, coded×, coded_ℕ};
    ghost use Rattle.proxy_model.specs.Keyed.{Keyed, is_in_order};

    ghost Value = { Keyed V };

    ghost coded = { coded_list (coded× (coded_list coded_ℕ) V.code) };

    ghost view = { λ r. r.rows.items };

    ghost invariant = { λ r. IsTrue (is_in_order r.rows.items) };
}

impl<V> Rows<V> {
    /// No rows. It takes no memory.
    pub fn new(alloc: Global) -> Rows<V>
        ensures { result ≡ [] }
    {
        Rows {
            rows: Vec::new(alloc),
        }
    }

    /// All of them, in the order of their keys.
    pub fn as_slice(&self) -> &[(Bytes, V)]
        ensures all { result.now ≡ self.now }
        ensures in_order { IsTrue (is_in_order self.now) }
    {
        &self.rows
    }

    /// All of them, in the order of their keys, by themselves.
    pub fn into_vec(self) -> Vec<(Bytes, V)>
        ensures { result.items ≡ self }
    {
        self.rows
    }

    /// What is kept at the key.
    pub fn find(&self, key: &Bytes) -> Option<&V>
        ensures { option_copied result ≡ at self.now key.now }
    {
        match self.place(key) {
            Ok(at) => Some(&self.rows[at].1),
            Err(_) => None,
        }
    }

    /// Where the key's row is, or where it would go.
    fn place(&self, key: &Bytes) -> Result<usize, usize>
        ensures found { IfOk result (IsPlace self.now key.now) }
        ensures in_range { IfOk result (λ place. place < length self.now) }
        ensures up_to_end { IfErr result (λ gap. gap ≤ length self.now) }
        ensures absent { IfErr result (IsGap self.now key.now) }
    {
        self.rows.binary_search_by(
            |row: &(Bytes, V)| -> Ordering
                ensures { result ≡ slice_cmp nat_cmp row.now.0 key.entry.now }
            { row.0.cmp(key) },
        )
    }
}

impl<V: Drop> Rows<V> {
    /// Keeps the value at the key, in place of another one. Where memory was wanting all is as before.
    pub fn put(&mut self, key: Bytes, value: V) -> Result<(), NoMemory>
        ensures ok { OnOk result (self.new ≡ with_at self.old key (Some value)) }
        ensures err { OnErr result (self.new ≡ self.old) }
    {
        match self.place(&key) {
            Ok(at) => self.rows[at].1 = value,
            Err(gap) => self.rows.insert(gap, (key, value))?,
        }
        Ok(())
    }

    /// Keeps another value at the key, where there is one. It takes no memory.
    pub fn replace(&mut self, key: &Bytes, value: V)
        ensures { self.new ≡ changed_at self.old key.now (λ old. value) }
    {
        if let Ok(at) = self.place(key) {
            self.rows[at].1 = value;
        }
    }

    /// Nothing is kept at the key any more. It takes no memory.
    pub fn remove(&mut self, key: &Bytes)
        ensures { self.new ≡ with_at self.old key.now None }
    {
        if let Ok(place) = self.place(key) {
            drop(self.rows.remove(place));
        }
    }

    /// Nothing is kept any more where the test passes. It takes no memory.
    pub fn remove_where<T: RowTest<V>>(&mut self, test: &T)
        ensures { self.new ≡ filter (λ e. not (T.passes test.now e.0 e.1)) self.old }
    {
        keep_others(&mut self.rows, test);
    }
}

/// The rows that don't pass the test.
fn keep_others<V: Drop, T: RowTest<V>>(rows: &mut Vec<(Bytes, V)>, test: &T)
    ensures { rows.new.items ≡ filter (λ e. not (T.passes test.now e.0 e.1)) rows.old.items }
{
    rows.retain(
        |row: &(Bytes, V)| -> bool
            ensures { result ≡ not (T.passes test.entry.now row.now.0 row.now.1) }
        { !test.passes(&row.0, &row.1) },
    );
}

impl Rows<bool> {
    /// Each flag is raised whose key is in one of the ranges. It takes no memory.
    pub fn raise_in(&mut self, ranges: &[KeyRange])
        ensures { self.new ≡ each (λ k flag. covered ranges.now k || flag) self.old }
    {
        for row in self.rows.iter_mut() {
            raise_row(ranges, row);
        }
    }

    /// Each flag is raised. It takes no memory.
    pub fn raise_all(&mut self)
        ensures { self.new ≡ each (λ k flag. true) self.old }
    {
        for row in self.rows.iter_mut() {
            raise(row);
        }
    }
}

fn raise_row(ranges: &[KeyRange], row: &mut (Bytes, bool))
    ensures { row.new ≡ raised_in ranges.now row.old }
{
    if is_in_one(ranges, &row.0) {
        row.1 = true;
    }
}

fn raise(row: &mut (Bytes, bool))
    ensures { row.new ≡ (row.old.0, true) }
{
    row.1 = true;
}

fn is_in_one(ranges: &[KeyRange], key: &Bytes) -> bool
    ensures { result ≡ covered ranges.now key.now }
{
    ranges.iter().any(|range| range.contains(key))
}
