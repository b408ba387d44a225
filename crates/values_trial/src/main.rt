//! Tables of what values, their texts, their JSON and the small parts of a proxy come to.
//!
//! The standard input has tables, each behind a line `table NAME`. A row of a table is a line: its kind, what is tried, and after ` -> `
//! what has to come of it, spelled as in scripts. Each row that differs is printed, and of each table the number of its rows and of
//! those that differ.
//!
//! `values`, tried on `etcd_types`:
//! - `order KEY KEY -> less|equal|greater`: how the keys stand to each other.
//! - `one KEY END -> yes|no`: whether the range is the range of one key.
//! - `contains KEY END KEY -> yes|no`: whether the range has the key.
//! - `overlaps KEY END KEY END -> yes|no`: whether the ranges have a key in common, asked both ways.
//! - `put CREATE VERSION LEASE NAMED REVISION -> CREATE VERSION LEASE`: the record after a put that names a lease, at a
//!   revision, where the record before it had these numbers; a create revision of 0 says that there was none.
//! - `request REQUEST -> COUNT`, `answer ANSWER -> COUNT`, `item MESSAGE -> COUNT`: how many of the values of its kind so
//!   far, itself among them, equal a copy of it.
//!
//! `texts`, tried on `script_text`; what is refused comes to `wrong NUMBER PLACE`:
//! - `item TEXT -> TEXT`: an item, read and written again.
//! - `line NUMBER TEXT -> KIND { NAME: VALUE, .. }`: a line by its number.
//!
//! `requests`, tried on `api_request`:
//! - `client PATH BODY -> OUTCOME`: the request that a client's path and body are, by its text, or the first fault with the
//!   name that it has.
//! - `call PATH BODY -> OUTCOME`: the same where a store reads a proxy's call.
//! - `both PATH BODY -> OUTCOME`: that both read the same.
//! - `written REQUEST -> PATH BODY`: what is written for a request. Where a store reads that as another, `, read as OUTCOME`
//!   comes after it.
//!
//! `replies`, tried on `api_reply`, where a line `request REQUEST` is no row, but says which request the replies below it are to:
//! - `reply STATUS BODY -> OUTCOME`: the answer that a status and a body are, by its text, or `unreadable`.
//! - `line BODY -> OUTCOME`: the message that a line of a watch is, by its text, or `unreadable`.
//! - `answer ANSWER -> STATUS BODY`: what is written for an answer. Where that is read as another, `, read as OUTCOME` comes
//!   after it.
//! - `item MESSAGE -> BODY`: the same for a message of a watch.
//!
//! A body is the rest of the line. Where it begins with `%` or `~` it is spelled as bytes are in scripts. A line feed at the end of
//! what is written is shown as `\n`; a body that is read as a reply or a line is tried with a line feed after it too.
//!
//! `leases`, tried on `namespace_keys` and `lease_txn`:
//! - `space end PREFIX -> KEY`: the end of all keys with the prefix.
//! - `space wrap NAMESPACE REQUEST -> REQUEST`: the request with the namespace.
//! - `space unwrap NAMESPACE ANSWER -> ANSWER`, `space bare NAMESPACE MESSAGE -> MESSAGE`: without it, or `foreign KEY`.
//! - `build acquire PREFIX KEY SESSION`, `build rescind PREFIX KEY REVISION`, `build revoke PREFIX KEY REVISION`, each `-> REQUEST`: the
//!   transactions on one ownership key.
//! - `build owner PREFIX REVISION REQUEST`, `build guest PREFIX REQUEST`, `build several PREFIX REQUEST`, each `-> REQUEST`: guarded writes.
//! - `read claimed PREFIX KEY ANSWER -> acquired REVISION VALUE`, `.. -> owned VALUE OWNER`, `.. -> shape`: what the answer to an
//!   acquire says; `-` for no record and no owner.
//! - `read wrote PREFIX REQUEST | ANSWER -> done ANSWER`, `.. -> blocked KEY ..`, `.. -> shape`: what the answer to a guarded write says.
//! - `read guard ANSWER -> yes|no|shape`: whether a rescind or a revoke call was done.
//!
//! `parts`, tried on `session_keep`, `member_order`, `watch_resume` and `snapshot_reads`; a part goes on from row to row:
//! - `session start NUMBER TTL`, `session granted SENT TTL`, `session renewed SENT TTL`, `session end`, `session lost`, each
//!   `-> DEADLINE` in milliseconds, or `-> none`; `session at NOW -> dead`, `-> live`, or `-> due` where it wants a keepalive.
//! - `members of COUNT`, `members failed MEMBER`, `members seen REVISION`, each `-> CURRENT SEEN`;
//!   `members check SENT REVISION -> fresh` or `-> stale NEEDED GOT`.
//! - `stream open START`, `stream created REVISION`, `stream advance LAST`, `stream cut`, `stream cancelled COMPACTION`, each
//!   `-> created START NEXT` or `-> cut START NEXT`: whether it is created, where it would be opened again, and its known next
//!   revision, or `none`.
//! - `held TRANSACTION -> ANSWER`, with zeros as its header, or `-> none`, where `a` is held with the value `y`, created at revision
//!   3, changed at 4, of version 2 and under no lease, and `c` as absent.
#![tactic(auto)]

mod answers;
mod builds;
mod copies;
mod held;
mod keys;
mod replies;
mod reply_texts;
mod request_texts;
mod requests;
mod scripts;
mod shown;
mod small_parts;
mod spaces;
mod steps;
mod tables;
mod values;

use crate::tables::{Table, Tables};
use std::alloc::Global;
use table_rows::Wrong;

/// The table that is being tried, and how many of its rows there were and differed.
#[derive(Clone, Copy, Debug)]
struct Tried {
    table: Option<Table>,
    rows: u64,
    differing: u64,
}

impl Tried {
    fn new(table: Option<Table>) -> Tried {
        Tried {
            table,
            rows: 0,
            differing: 0,
        }
    }

    /// Takes a line: the name of the next table, a row, or what is prepared for rows.
    fn take<R: Print>(&mut self, rt: &R, tables: &mut Tables, line: &str) -> Result<(), Wrong> {
        if let Some(name) = line.strip_prefix("table ") {
            self.show(rt)?;
            *self = Tried::new(Some(Table::named(name)?));
        } else if !line.is_empty() && !line.starts_with("#") {
            let table = self.table.ok_or(Wrong::Word)?;
            match line.split_once(" -> ") {
                None => tables.prepare(line)?,
                Some((case, wanted)) => {
                    let came = tables.came_of(table, case)?;
                    self.compare(rt, line, came.as_str(), wanted)?;
                }
            }
        }
        Ok(())
    }

    fn compare<R: Print>(
        &mut self,
        rt: &R,
        line: &str,
        came: &str,
        wanted: &str,
    ) -> Result<(), Wrong> {
        self.rows = self.rows.saturating_add(1);
        if came != wanted {
            self.differing = self.differing.saturating_add(1);
            println!(rt; "{line}\ncame {came}")?;
        }
        Ok(())
    }

    /// Shows the counts of the table, where there is one.
    fn show<R: Print>(&self, rt: &R) -> Result<(), Wrong> {
        if let Some(table) = self.table {
            let (rows, differing) = (self.rows, self.differing);
            println!(rt; "{}: {rows} rows, {differing} differ", table.name())?;
        }
        Ok(())
    }
}

/// Tries all tables of the input.
fn try_tables<R: Input + Print>(rt: &R, alloc: Global, tables: &mut Tables) -> Result<(), Wrong> {
    let mut tried = Tried::new(None);
    for line in rt.lines(alloc) {
        let line = line?;
        tried.take(rt, tables, line.as_str())?;
    }
    tried.show(rt)
}

fn main(rt: HostRuntime) -> Result<(), Wrong> {
    // What the rows are tried on is large, and each way out of who owns it is dear to prove: others borrow it.
    let mut tables = Tables::new(rt.alloc())?;
    let told = try_tables(&rt, rt.alloc(), &mut tables);
    drop(tables);
    told
}
