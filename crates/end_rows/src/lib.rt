//! Rows side by side with room at both ends: where one comes or goes those behind it move or those before it, which are fewer, and where
//! one moves those between its two places.
#![tactic(auto)]

ghost use Rattle.std.specs.Prelude.{◌≡◌, ◌<◌, ◌≤◌, [], length, drop, set, OnOk, OnErr};
ghost use Rattle.std.specs.List.{insert, remove};

use etcd_types::NoMemory;
use std::alloc::Global;
use std::marker::Model;

/// Rows in the order in which they were put.
#[derive(Debug, Drop)]
pub struct EndRows<T> {
    /// The rows, behind what is left over of rows that went.
    items: Vec<T>,
    /// How many are left over.
    over: usize,
}

impl<T> Model for EndRows<T> {
    ghost use Rattle.std.specs.Prelude.{List, drop, vec_len, ◌≤◌};
    ghost use Rattle.std.specs.Coded.{coded_list};

    ghost Value = { List T };

    ghost coded = { coded_list T.code };

    ghost view = { λ r. drop r.over r.items.items };

    ghost invariant = { λ r. r.over ≤ vec_len r.items };
}

/// So many more than there are rows may be left over.
const LEFT: usize = 64;

impl<T> EndRows<T> {
    /// No rows. It takes no memory.
    pub fn new(alloc: Global) -> EndRows<T>
        ensures { result ≡ [] }
    {
        EndRows {
            items: Vec::new(alloc),
            over: 0,
        }
    }

    /// All of them. It takes constant time.
    pub fn as_slice(&self) -> &[T]
        ensures { result.now ≡ self.now }
    {
        &self.items[self.over..]
    }
}

impl<T: Drop> EndRows<T> {
    /// Another row stands at this place.
    pub fn set(&mut self, place: usize, row: T)
        requires { place < length self.old }
        ensures { self.new ≡ set self.old place row }
    {
        self.items[self.over + place] = row;
    }

    /// A row goes in at this place. Where memory was wanting all is as before.
    pub fn insert(&mut self, place: usize, row: T) -> Result<(), NoMemory>
        requires { place ≤ length self.old }
        ensures ok { OnOk result (self.new ≡ insert self.old place row) }
        ensures err { OnErr result (self.new ≡ self.old) }
    {
        let count = self.items.len() - self.over;
        if self.over > 0 && place <= count - place {
            self.over -= 1;
            move_row(&mut self.items[self.over..], 0, place, row);
        } else {
            self.items.insert(self.over + place, row)?;
        }
        Ok(())
    }

    /// The row at this place goes. It takes no memory.
    pub fn remove(&mut self, place: usize)
        requires { place < length self.old }
        ensures { self.new ≡ remove self.old place }
    {
        let count = self.items.len() - self.over;
        if place < count - 1 - place {
            to_front(&mut self.items[self.over..], place);
            self.over += 1;
            self.close();
        } else {
            drop(self.items.remove(self.over + place));
        }
    }

    /// The row at one place goes, and another one goes in at the other place of those that are left. It takes no memory.
    pub fn turn(&mut self, from: usize, to: usize, row: T)
        requires from { from < length self.old }
        requires to { to < length self.old }
        ensures { self.new ≡ insert (remove self.old from) to row }
    {
        move_row(&mut self.items[self.over..], from, to, row);
    }

    /// Lets go of what is left over, where that is more than the rows.
    fn close(&mut self)
        ensures { self.new ≡ self.old }
    {
        let count = self.items.len() - self.over;
        if self.over > count && self.over - count > LEFT {
            self.items.rotate_left(self.over);
            self.items.truncate(count);
            self.over = 0;
        }
    }
}

/// The row at one place goes, and another one goes in at the other place of those that are left.
fn move_row<T: Drop>(rows: &mut [T], from: usize, to: usize, row: T)
    requires from { from < length rows.old }
    requires to { to < length rows.old }
    ensures { rows.new ≡ insert (remove rows.old from) to row }
{
    if from <= to {
        rows[from..to + 1].rotate_left(1);
    } else {
        rows[to..from + 1].rotate_right(1);
    }
    rows[to] = row;
}

/// The row at this place comes to the front.
fn to_front<T>(rows: &mut [T], place: usize)
    requires { place < length rows.old }
    ensures rest { drop 1 rows.new ≡ remove rows.old place }
    ensures len { length rows.new ≡ length rows.old }
{
    rows[..place + 1].rotate_right(1);
}
