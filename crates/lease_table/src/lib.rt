//! The lease table of a proxy: what it has of each key that it owns, found by key.
//!
//! It is a finite map from keys to entries, beside the number of entries for which room was made. Room is made first,
//! by `reserve`, so that an entry can be added where no memory may be wanting. An entry is mostly found in constant time, the first
//! rescind that is to be sent always, and the entries of a range by its ends.
#![tactic(auto)]

ghost use Rattle.std.specs.Prelude.{◌≡◌, ◌<◌, ◌≤◌, ◌==◌, ◌&&◌, if◌then◌else◌, true, false, IsTrue, None, Some, OnOk, OnErr, length, [], is_some, IfOk, IfErr};
ghost use Rattle.std.specs.List.{list_any};
ghost use Rattle.std.specs.Ordering.{nat_cmp};
ghost use Rattle.std.specs.Cmp.Lexicographic.{slice_cmp};
ghost use Rattle.std.specs.Option.{option_copied};
ghost use Rattle.keyed_rows.specs.Places.{IsPlace, IsGap};
ghost use Rattle.etcd_types.specs.Keys.{is_zero};
ghost use Rattle.etcd_types.specs.Ranges.{contains, lowest};
ghost use Rattle.proxy_model.specs.Keyed.{at, with_at, is_in_order};
ghost use Rattle.proxy_model.specs.LeaseTable.{empty_table, room, is_held, is_writing, hold, change, leave_range, writing, written, unwritten, marked, leaving, given_up};
ghost use Rattle.wait_model.specs.DueOrder.{first_rescind};
ghost use Rattle.wait_model.specs.Edits.{each};
ghost use Rattle.wait_model.specs.Phases.{rescind_sent};
ghost use Rattle.lease_table.specs.Starts.{IsStart, is_in};
ghost use Rattle.lease_table.specs.Turns.{turned, is_quiet_at};
ghost use Rattle.slot_rows.specs.Roomy.{changed_in};

mod dues;
mod turns;

use crate::dues::{count_changed, first_of_added, first_of_changed, first_of_removed};
use crate::turns::{Turn, is_quiet, is_rescind_due};
use etcd_types::{Bytes, KeyRange, Kv, NoMemory};
pub use proxy_model::{Entry, Phase};
use slot_rows::SlotRows;
use std::alloc::Global;
use std::marker::Model;

/// The entries, by key.
#[derive(Debug, Drop)]
pub struct LeaseTable {
    rows: SlotRows<Entry>,
    /// How many rescinds are to be sent.
    due: usize,
    /// The place of the first entry whose rescind is, or behind all.
    first: usize,
}

impl Model for LeaseTable {
    ghost use Rattle.proxy_model.specs.LeaseTable.{Table};
    ghost use Rattle.lease_table.specs.Dues.{IsRoomy};

    ghost Value = { Table };

    ghost view = { λ t. record { entries = t.rows.rows; spare = t.rows.spare } };

    ghost invariant = { λ t. IsRoomy t.rows.rows t.rows.spare t.due t.first };
}

impl LeaseTable {
    /// A table without entries. It takes no memory.
    pub fn new(alloc: Global) -> LeaseTable
        ensures { result ≡ empty_table }
    {
        LeaseTable {
            rows: SlotRows::new(alloc),
            due: 0,
            first: 0,
        }
    }

    /// Makes room for that many more entries.
    pub fn reserve(&mut self, count: u64) -> Result<(), NoMemory>
        ensures entries { self.new.entries ≡ self.old.entries }
        ensures spare { self.old.spare ≤ self.new.spare }
        ensures ok { OnOk result (count ≤ self.new.spare) }
        ensures err { OnErr result (self.new ≡ self.old) }
    {
        self.rows.reserve(count)
    }

    /// How many entries there is room for already.
    pub fn spare(&self) -> u64
        ensures { result ≡ self.now.spare }
    {
        self.rows.spare() as u64
    }

    /// How many entries there are. No key has two.
    pub fn len(&self) -> usize
        ensures all { result ≡ length self.now.entries }
        ensures in_order { IsTrue (is_in_order self.now.entries) }
    {
        self.rows.len()
    }

    /// The key's entry.
    pub fn find(&self, key: &Bytes) -> Option<&Entry>
        ensures { option_copied result ≡ at self.now.entries key.now }
    {
        self.rows.find(key)
    }

    /// Whether a key of the range has an entry.
    pub fn has_in(&self, range: &KeyRange) -> bool
        ensures { result ≡ list_any (λ e. contains range.now e.0) self.now.entries }
    {
        // For the prover: the entries are in the order of their keys.
        let _count = self.len();
        self.is_in(range, self.start(range))
    }

    /// Adds an entry for a key that has none, in the room that was made.
    pub fn hold(&mut self, key: Bytes, entry: Entry)
        requires absent { at self.old.entries key ≡ None }
        requires room { 1 ≤ self.old.spare }
        ensures { self.new ≡ hold self.old key entry }
    {
        match self.place(&key) {
            Ok(_) => unreachable!(),
            Err(gap) => {
                let is = is_rescind_due(&entry);
                self.due = count_changed(self.due, false, is);
                self.first = first_of_added(self.first, gap, is);
                self.rows.insert(gap, key, entry);
            }
        }
    }

    /// An owner write of the key is due.
    pub fn begin_write(&mut self, key: &Bytes)
        requires { IsTrue (is_held (at self.old.entries key.now)) }
        ensures { self.new ≡ change self.old key.now writing }
    {
        self.turn(key, Turn::To(Phase::Writing { revoked: false }));
    }

    /// The owner write was done, and left this record: the key is held again, or given up if it was marked.
    pub fn wrote(&mut self, key: &Bytes, kv: Option<Kv>)
        requires { IsTrue (is_writing (at self.old.entries key.now)) }
        ensures { self.new ≡ change self.old key.now (written kv) }
    {
        self.turn(key, Turn::Wrote(kv));
    }

    /// The owner write wasn't done: the key is held again with its old record, or given up if it was marked.
    pub fn unwrite(&mut self, key: &Bytes)
        requires { IsTrue (is_writing (at self.old.entries key.now)) }
        ensures { self.new ≡ change self.old key.now unwritten }
    {
        self.turn(key, Turn::Unwritten);
    }

    /// The key is given up once its owner write is answered.
    pub fn mark(&mut self, key: &Bytes)
        requires { IsTrue (is_writing (at self.old.entries key.now)) }
        ensures { self.new ≡ change self.old key.now marked }
    {
        self.turn(key, Turn::To(Phase::Writing { revoked: true }));
    }

    /// The key is given up.
    pub fn leave(&mut self, key: &Bytes)
        requires { IsTrue (is_some (at self.old.entries key.now)) }
        ensures { self.new ≡ change self.old key.now leaving }
    {
        self.turn(key, Turn::Left);
    }

    /// The key's entry, if there is one, is gone. There is room for as many entries in all as before.
    pub fn remove(&mut self, key: &Bytes)
        ensures entries { self.new.entries ≡ with_at self.old.entries key.now None }
        ensures room { room self.new ≡ room self.old }
    {
        if let Ok(place) = self.place(key) {
            let row = self.rows.remove(place);
            let was = is_rescind_due(&row.1);
            drop(row);
            self.due = count_changed(self.due, was, false);
            self.first = first_of_removed(&self.rows, self.due, self.first, place);
        }
    }

    /// All entries are gone. There is room for as many entries in all as before.
    pub fn drop_all(&mut self)
        ensures entries { self.new.entries ≡ [] }
        ensures room { room self.new ≡ room self.old }
    {
        self.rows.clear();
        self.due = 0;
        self.first = 0;
    }

    /// Each held key of the range is given up, and each that is being written is marked.
    pub fn leave_range(&mut self, range: &KeyRange)
        ensures { self.new ≡ leave_range self.old range.now }
    {
        // For the prover: the entries are in the order of their keys.
        let _count = self.len();
        let mut place = self.start(range);
        while self.is_in(range, place) {
            self.turn_at(place, Turn::GivenUp);
            place += 1;
        }
    }

    /// The key is given up: at once where it is held, once its owner write is answered where it is being written.
    pub fn give_up(&mut self, key: &Bytes)
        ensures { self.new ≡ change self.old key.now given_up }
    {
        self.turn(key, Turn::GivenUp);
    }

    /// Each key is given up.
    pub fn give_up_all(&mut self)
        ensures { self.new ≡ record self.old { entries = each (λ k e. given_up e) self.old.entries } }
    {
        for place in 0..self.rows.len() {
            self.turn_at(place, Turn::GivenUp);
        }
    }

    /// The rescind of the key was sent, where its entry leaves.
    pub fn rescind_sent(&mut self, key: &Bytes)
        ensures { self.new ≡ change self.old key.now (rescind_sent true) }
    {
        self.turn(key, Turn::RescindSent);
    }

    /// The rescind of the key's ownership key of this create revision was lost, and is due again where that entry leaves.
    pub fn rescind_lost(&mut self, key: &Bytes, create: u64)
        ensures { self.new ≡ change self.old key.now (λ e. if e.create == create then rescind_sent false e else e) }
    {
        self.turn(key, Turn::RescindLost(create));
    }

    /// The first entry that leaves and whose rescind is to be sent.
    pub fn first_rescind(&self) -> Option<&(Bytes, Entry)>
        ensures { option_copied result ≡ first_rescind self.now.entries }
    {
        if self.first < self.rows.len() {
            Some(self.rows.row(self.first))
        } else {
            None
        }
    }

    /// Where the key's row is, or where it would go.
    fn place(&self, key: &Bytes) -> Result<usize, usize>
        ensures found { IfOk result (IsPlace self.now.entries key.now) }
        ensures in_range { IfOk result (λ place. place < length self.now.entries) }
        ensures up_to_end { IfErr result (λ gap. gap ≤ length self.now.entries) }
        ensures absent { IfErr result (IsGap self.now.entries key.now) }
    {
        self.rows.place(key)
    }

    /// Where the first row that isn't below the range is, or behind all.
    fn start(&self, range: &KeyRange) -> usize
        ensures { IsStart (lowest range.now) self.now.entries result }
    {
        if is_all(range) {
            return 0;
        }
        match self.place(&range.key) {
            Ok(place) | Err(place) => place,
        }
    }

    /// Whether there is a row at this place, and its key is in the range.
    fn is_in(&self, range: &KeyRange, place: usize) -> bool
        ensures { result ≡ is_in range.now self.now.entries place }
    {
        place < self.rows.len() && range.contains(&self.rows.row(place).0)
    }

    /// The key's entry, where there is one, takes this turn. It mostly takes constant time, where no rescind comes or goes by it.
    fn turn(&mut self, key: &Bytes, turn: Turn)
        ensures { self.new ≡ change self.old key.now (turned turn) }
    {
        // For the prover: the entries are in the order of their keys.
        let _count = self.len();
        if self.is_quiet(key, &turn) {
            self.rows.change_at(key, turn);
        } else if let Ok(place) = self.place(key) {
            self.turn_at(place, turn);
        }
    }

    /// Whether the key has an entry, and no rescind of it is to be sent before or after this turn, as far as is seen at once.
    fn is_quiet(&self, key: &Bytes, turn: &Turn) -> bool
        ensures { result ≡ is_quiet_at turn.now (at self.now.entries key.now) }
    {
        match self.find(key) {
            Some(entry) => is_quiet(entry, turn),
            None => false,
        }
    }

    /// The entry at this place takes this turn.
    fn turn_at(&mut self, place: usize, turn: Turn)
        requires { place < length self.old.entries }
        ensures { self.new ≡ record self.old { entries = changed_in self.old.entries place (turned turn) } }
    {
        let was = is_rescind_due(&self.rows.row(place).1);
        self.rows.change(place, turn);
        let is = is_rescind_due(&self.rows.row(place).1);
        self.due = count_changed(self.due, was, is);
        self.first = first_of_changed(&self.rows, self.due, self.first, place, is);
    }
}

/// Whether all keys are in the range.
fn is_all(range: &KeyRange) -> bool
    ensures { result ≡ (is_zero range.now.end && is_zero range.now.key) }
{
    is_zero(range.end.as_slice()) && is_zero(range.key.as_slice())
}

/// Whether these bytes are one zero byte.
fn is_zero(bytes: &[u8]) -> bool
    ensures { result ≡ is_zero bytes.now }
{
    match bytes {
        [only] => *only == 0,
        _ => false,
    }
}
