use crate::replies::Replies;
use crate::small_parts::SmallParts;
use crate::values::Values;
use crate::{answers, builds, requests, scripts, spaces};
use std::alloc::Global;
use table_rows::{Wrong, parts};

/// What the rows of a table are about.
#[derive(Clone, Copy, Debug, PartialEq, Eq)]
pub enum Table {
    Values,
    Texts,
    Requests,
    Replies,
    Leases,
    Parts,
}

impl Table {
    /// The table of this name.
    pub fn named(name: &str) -> Result<Table, Wrong> {
        match name {
            "values" => Ok(Table::Values),
            "texts" => Ok(Table::Texts),
            "requests" => Ok(Table::Requests),
            "replies" => Ok(Table::Replies),
            "leases" => Ok(Table::Leases),
            "parts" => Ok(Table::Parts),
            _ => Err(Wrong::Word),
        }
    }

    pub fn name(self) -> &'static str {
        match self {
            Table::Values => "values",
            Table::Texts => "texts",
            Table::Requests => "requests",
            Table::Replies => "replies",
            Table::Leases => "leases",
            Table::Parts => "parts",
        }
    }
}

/// What the rows of the tables are tried on, with what goes on from row to row.
#[derive(Drop)]
pub struct Tables {
    alloc: Global,
    values: Values,
    replies: Replies,
    parts: SmallParts,
}

impl Tables {
    pub fn new(alloc: Global) -> Result<Tables, Wrong> {
        Ok(Tables {
            alloc,
            values: Values::new(alloc),
            replies: Replies::new(alloc),
            parts: SmallParts::new(alloc)?,
        })
    }

    /// Takes a line that is no row: the request that the replies below it are to.
    pub fn prepare(&mut self, line: &str) -> Result<(), Wrong> {
        match line.strip_prefix("request ") {
            Some(request) => self.replies.ask(request),
            None => Err(Wrong::Word),
        }
    }

    /// What comes of a row's case.
    pub fn came_of(&mut self, table: Table, case: &str) -> Result<String, Wrong> {
        match table {
            Table::Values => self.values.try_row(case),
            Table::Texts => scripts::came_of(self.alloc, case),
            Table::Requests => requests::try_row(self.alloc, case),
            Table::Replies => self.replies.try_row(case),
            Table::Leases => lease_row(self.alloc, case),
            Table::Parts => self.parts.came_of(case),
        }
    }
}

fn lease_row(alloc: Global, case: &str) -> Result<String, Wrong> {
    let (group, case) = parts(case, " ")?;
    let (kind, case) = parts(case, " ")?;
    match group {
        "space" => spaces::came_of(alloc, kind, case),
        "build" => builds::came_of(alloc, kind, case),
        _ => answers::came_of(alloc, kind, case),
    }
}
