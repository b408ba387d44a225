ghost use Rattle.std.specs.Prelude.{◌≡◌, [], true, None, Some, is_some, IsTrue, OnOk, OnErr};
ghost use Rattle.proxy_model.specs.Keyed.{at, with_at, is_in_order};
ghost use Rattle.mark_rows.specs.From.{rows_from};

use crate::mark::Mark;
use crate::places::place;
use end_rows::EndRows;
use etcd_types::NoMemory;
use std::alloc::Global;
use std::cmp::Ordering;
use std::marker::Model;

/// A number for each of some marks.
#[derive(Debug, Drop)]
pub struct MarkRows {
    rows: EndRows<(Mark, u64)>,
}

impl Model for MarkRows {
    ghost use Rattle.std.specs.Prelude.{ℕ, IsTrue};
    ghost use Rattle.proxy_model.specs.Keyed.{Keyed, is_in_order};

    ghost Value = { Keyed ℕ };

    ghost view = { λ r. r.rows };

    ghost invariant = { λ r. IsTrue (is_in_order r.rows) };
}

impl MarkRows {
    /// No rows. It takes no memory.
    pub fn new(alloc: Global) -> MarkRows
        ensures { result ≡ [] }
    {
        MarkRows {
            rows: EndRows::new(alloc),
        }
    }

    /// All of them, in the order of their marks. It takes constant time.
    pub fn all(&self) -> &[(Mark, u64)]
        ensures all { result.now ≡ self.now }
        ensures in_order { IsTrue (is_in_order self.now) }
    {
        self.rows.as_slice()
    }

    /// Those at this mark and behind it, in the order of their marks.
    pub fn from(&self, mark: &Mark) -> &[(Mark, u64)]
        ensures all { result.now ≡ rows_from mark.now self.now }
        ensures in_order { IsTrue (is_in_order self.now) }
    {
        let rows = self.rows.as_slice();
        match place(rows, mark) {
            Ok(at) => &rows[at..],
            Err(at) => &rows[at..],
        }
    }

    /// The number stands at the mark, in place of another one. Where memory was wanting all is as before.
    pub fn put(&mut self, mark: Mark, number: u64) -> Result<(), NoMemory>
        ensures ok { OnOk result (self.new ≡ with_at self.old mark (Some number)) }
        ensures err { OnErr result (self.new ≡ self.old) }
        ensures in_order { IsTrue (is_in_order self.old) }
    {
        match place(self.rows.as_slice(), &mark) {
            Ok(at) => self.rows.set(at, (mark, number)),
            Err(gap) => self.rows.insert(gap, (mark, number))?,
        }
        Ok(())
    }

    /// Nothing stands at the mark any more. It takes no memory.
    pub fn remove(&mut self, mark: &Mark)
        ensures { self.new ≡ with_at self.old mark.now None }
    {
        if let Ok(at) = place(self.rows.as_slice(), mark) {
            self.rows.remove(at);
        }
    }

    /// The number that stands at the mark stands at the other one. It takes no memory, and where both are one constant time.
    pub fn turn(&mut self, mark: &Mark, other: Mark, number: u64)
        requires { at self.old mark.now ≡ Some number }
        ensures { self.new ≡ with_at (with_at self.old mark.now None) other (Some number) }
    {
        let rows = self.rows.as_slice();
        if mark.compare(&other) == Ordering::Equal {
            return;
        }
        let Ok(at) = place(rows, mark) else {
            unreachable!()
        };
        match place(rows, &other) {
            Ok(_) => {
                self.rows.remove(at);
                self.renumber(other, number);
            }
            Err(gap) => {
                let to = if gap > at { gap - 1 } else { gap };
                self.rows.turn(at, to, (other, number));
            }
        }
    }

    /// The number stands at the mark, at which another one stands. It takes no memory.
    fn renumber(&mut self, mark: Mark, number: u64)
        requires { is_some (at self.old mark) ≡ true }
        ensures { self.new ≡ with_at self.old mark (Some number) }
    {
        match place(self.rows.as_slice(), &mark) {
            Ok(at) => self.rows.set(at, (mark, number)),
            Err(_) => unreachable!(),
        }
    }
}
