//! Tables of what a started server, the machine that its threads share, and the reading and writing of HTTP/1.1 come to.
//!
//! The standard input has tables, each after a line `table NAME`, and a row a line.
//!
//! `wire`, cases on `http_wire`: the kind of a case, what is tried, and what has to come of it. Bytes and texts are spelled as in
//! scripts. Each case that differs is printed, and at the end of all the number of cases and of those that differ.
//! - `request BYTES LOG`, `answer BYTES LOG`: what is read in one piece, in two pieces at each cut, and byte by
//!   byte.
//! - `lines MOST BYTES LOG`, `whole MOST BYTES LOG`: the same, where a line has at most so many bytes; where each answer's body is
//!   read whole, of at most so many.
//! - `alone MOST BYTES LOG`: the first answer with its whole body, in one piece, and whether bytes are held after it.
//! - `request_failing BYTES LOG`: byte by byte, and with each read failing in turn.
//! - `request_at_once BYTES LOG`, `answer_at_once BYTES LOG`: in one piece, where the second read fails.
//! - `request_filled FRONT FILLING TIMES BACK LOG`: the filling so many times between the front and the back.
//! - `body FRONT COUNT BACK TOLD`, `line FRONT COUNT BACK TOLD`: so many bytes between the front and the back; the length of
//!   the first request's body, or of the first answer's first line, or the fault.
//! - `reply STATUS BODY BYTES`, `bodiless STATUS BODY BYTES`, `continue BYTES`, `begin BYTES`, `chunk PIECE BYTES`, `end BYTES`: what is written, at once,
//!   a few bytes at a time, and with each write failing in turn.
//! - `call HOST PATH BODY BYTES`, `kept_call HOST PATH BODY BYTES`: the bytes of a call to a member, on a connection of its own and
//!   on one that stays.
//!
//! `hub`, races on `turn_hub`: `PAIRS LETTERS`, the number of pairs, at most 32, and of the letters that each pass takes. Pairs of
//! passes play a letter to and fro through one mailbox, and each waits until its letter is there. A wake-up that was lost would
//! show as a wait of 10 seconds.
//!
//! `clients`, plans by their names in `src/plan.rt`, each by a started server in threads, over a link and connections of a trial: two
//! clients at once, where the link holds the first call until the second was answered, so that a server that served one client after
//! the other would never answer the first; single clients, with calls, reads, writes and streams that fail. What each client was told,
//! and how often members were called, is printed.
//!
//! `starts`, whose one row is `all`: each start of a part and each call of the host failing in turn, with how the server ends.
#![tactic(auto)]

mod board;
mod cases;
mod ends;
mod link;
mod logs;
mod mailbox;
mod marked;
mod outcome;
mod part;
mod pieces;
mod plan;
mod races;
mod servers;
mod settings;
mod starts;

use crate::cases::try_line;
use crate::plan::Plan;
use crate::races::show_race;
use crate::servers::{ends_of, serve_clients, show, show_starts};
use part_threads::spawner_of;
use std::alloc::Global;
use table_rows::Wrong;

/// More connections than any row has.
const MOST_CONNECTIONS: u64 = 4_096;

/// What the rows of a table are about.
#[derive(Clone, Copy, Debug, PartialEq, Eq)]
enum Table {
    Wire,
    Hub,
    Clients,
    Starts,
}

impl Table {
    /// The table of this name.
    fn named(name: &str) -> Result<Table, Wrong> {
        match name {
            "wire" => Ok(Table::Wire),
            "hub" => Ok(Table::Hub),
            "clients" => Ok(Table::Clients),
            "starts" => Ok(Table::Starts),
            _ => Err(Wrong::Word),
        }
    }
}

fn main(rt: HostRuntime) -> Result<(), Wrong> {
    let alloc: Global = rt.alloc();
    let mut table: Option<Table> = None;
    let mut cases = 0u64;
    let mut differing = 0u64;
    for line in rt.lines(alloc) {
        let line = line?;
        let line = line.as_str();
        if let Some(name) = line.strip_prefix("table ") {
            table = Some(Table::named(name)?);
        } else if !line.is_empty() && !line.starts_with("#") {
            match table.ok_or(Wrong::Word)? {
                Table::Wire => {
                    cases = cases.saturating_add(1);
                    let outcome = try_line(alloc, line)?;
                    if let Some(came) = outcome.differing() {
                        differing = differing.saturating_add(1);
                        println!(rt; "{line}\ncame {came}")?;
                    }
                }
                Table::Hub => show_race(rt, alloc, line)?,
                Table::Clients => {
                    let (ends, board) = ends_of(rt, alloc, Plan::named(line)?)?;
                    let Some(mut spawner) = spawner_of(rt, alloc, ends, MOST_CONNECTIONS) else {
                        return Err(Wrong::NoMemory);
                    };
                    serve_clients(&rt, alloc, &board, &mut spawner)?;
                    show(&rt, alloc, &board)?;
                }
                Table::Starts => show_starts(&rt, alloc)?,
            }
        }
    }
    println!(rt; "{cases} cases, {differing} differ")?;
    Ok(())
}
