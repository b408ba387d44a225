ghost use Rattle.std.specs.Prelude.{◌≡◌, [], true, Some, None, OnOk, OnErr};
ghost use Rattle.proxy_model.specs.Keyed.{at, with_at};
ghost use Rattle.ask_tables.specs.Marks.{is_narrow};
ghost use Rattle.ask_tables.specs.Marked.{HasRow, IsFree};
ghost use Rattle.ask_tables.specs.KeyMarks.{by_key, ticket_mark};
ghost use Rattle.ask_tables.specs.RowMarks.{row_mark, by_group, by_time, marks_of, put_at, taken_at};

use crate::key_marks::key_mark;
use crate::marks::mark_of;
use crate::row_marks::{RowMarks, group_mark, marks_of, time_mark};
use etcd_types::NoMemory;
use mark_rows::MarkRows;
use read_model::Asked;
use std::alloc::Global;

/// The number of each row, by its marks.
#[derive(Debug, Drop)]
pub struct Tables {
    /// By what its request waits for.
    pub waits: MarkRows,
    /// By the key at which it waits as a read.
    pub keys: MarkRows,
    /// By the lease whose next call it waits for.
    pub groups: MarkRows,
    /// By when it was asked, while it has no reply.
    pub times: MarkRows,
}

impl Tables {
    /// None. It takes no memory.
    pub fn new(alloc: Global) -> Tables
        ensures { result ≡ record { waits = []; keys = []; groups = []; times = [] } }
    {
        Tables {
            waits: MarkRows::new(alloc),
            keys: MarkRows::new(alloc),
            groups: MarkRows::new(alloc),
            times: MarkRows::new(alloc),
        }
    }

    /// The number stands at the request's marks. Where memory is wanting all is as before.
    pub fn put(&mut self, ask: &Asked, number: u64) -> Result<(), NoMemory>
        requires { IsFree (marks_of number ask.now) self.old }
        ensures ok { OnOk result (self.new ≡ put_at (marks_of number ask.now) number self.old) }
        ensures err { OnErr result (self.new ≡ self.old) }
        ensures narrow { is_narrow ask.now ≡ true }
    {
        self.waits.put(mark_of(ask), number)?;
        if let Err(full) = self.put_by_key(ask, number) {
            self.waits.remove(&mark_of(ask));
            return Err(full);
        }
        Ok(())
    }

    /// The same of all marks but that of what it waits for.
    fn put_by_key(&mut self, ask: &Asked, number: u64) -> Result<(), NoMemory>
        requires keys { at self.old.keys (ticket_mark by_key ask.now) ≡ None }
        requires groups { at self.old.groups (row_mark by_group number ask.now) ≡ None }
        ensures ok { OnOk result (self.new ≡ record self.old {
          keys = with_at self.old.keys (ticket_mark by_key ask.now) (Some number);
          groups = with_at self.old.groups (row_mark by_group number ask.now) (Some number);
          times = with_at self.old.times (row_mark by_time number ask.now) (Some number);
        }) }
        ensures err { OnErr result (self.new ≡ self.old) }
    {
        self.keys.put(key_mark(ask), number)?;
        if let Err(full) = self.put_by_row(ask, number) {
            self.keys.remove(&key_mark(ask));
            return Err(full);
        }
        Ok(())
    }

    /// The same of the marks that end with the number.
    fn put_by_row(&mut self, ask: &Asked, number: u64) -> Result<(), NoMemory>
        requires { at self.old.groups (row_mark by_group number ask.now) ≡ None }
        ensures ok { OnOk result (self.new ≡ record self.old {
          groups = with_at self.old.groups (row_mark by_group number ask.now) (Some number);
          times = with_at self.old.times (row_mark by_time number ask.now) (Some number);
        }) }
        ensures err { OnErr result (self.new ≡ self.old) }
    {
        self.groups.put(group_mark(ask, number), number)?;
        if let Err(full) = self.times.put(time_mark(ask, number), number) {
            self.groups.remove(&group_mark(ask, number));
            return Err(full);
        }
        Ok(())
    }

    /// Nothing stands at the request's marks any more. It takes no memory.
    pub fn remove(&mut self, ask: &Asked, number: u64)
        ensures { self.new ≡ taken_at (marks_of number ask.now) self.old }
    {
        let marks = marks_of(ask, number);
        self.waits.remove(&marks.wait);
        self.keys.remove(&marks.key);
        self.groups.remove(&marks.group);
        self.times.remove(&marks.time);
    }

    /// The number that stands at these marks stands at the request's. It takes no memory.
    pub fn turn(&mut self, old: &RowMarks, ask: &Asked, number: u64)
        requires { HasRow old.now number self.old }
        ensures turned { self.new ≡ put_at (marks_of number ask.now) number (taken_at old.now self.old) }
        ensures narrow { is_narrow ask.now ≡ true }
    {
        self.waits.turn(&old.wait, mark_of(ask), number);
        self.keys.turn(&old.key, key_mark(ask), number);
        self.groups
            .turn(&old.group, group_mark(ask, number), number);
        self.times.turn(&old.time, time_mark(ask, number), number);
    }
}
