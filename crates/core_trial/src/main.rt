//! Tables of steps on the small store, on the machine of one proxy and on two of its parts, and of what comes of each.
//!
//! The standard input has tables, each after a line `table NAME`: steps, one a line. A line `= OUTCOME` below a step says what is to
//! come of it. Each outcome that differs is printed, and of each table the number of its outcomes and of those that differ.
//!
//! `stores`, requests to a store:
//! - `store MEMBERS`, which begins anew; `exec MEMBER REQUEST`, `compact REVISION`, `expire LEASE`, `apply MEMBER REVISION`,
//!   `open MEMBER WATCH`, `push WATCH`, `progress WATCH`;
//! - `times COUNT WATCH MEMBER REQUEST`: a request so many times, with a push of the watch after each, of which the last is shown;
//! - `kept`: how many versions the store keeps.
//!
//! `proxies`, events of one proxy:
//! - `new MEMBERS NAMESPACE LEASING TTL`, which begins anew, with the clock at 0; `at NOW`, by which the clock goes on;
//! - `ask TICKET WORD REQUEST`, `take TICKET`, `leave TICKET`: what clients do; `tick WORD`, `work`;
//! - `answer CALL ANSWER`, `lost CALL`, `item STREAM MESSAGE`, `cut STREAM`: what comes of calls and streams;
//! - `ready`: the least ticket whose reply is there, or `none`; `peek KEY`: the value held of it, or `none`; `due`: whether a job
//!   is due, `yes` or `no`;
//! - `do EVENT`, which happens and nothing of it is shown; `read EVENT`, which doesn't happen: what one takes longer than the other
//!   is the time of the step.
//! An outcome is `replied ANSWER`, `waiting`, `pending`, `item MESSAGE`, `noted`, `call CALL MEMBER TICKET REQUEST`,
//! `begin STREAM MEMBER REQUEST`, `close STREAM`, `nothing` where no job is due, or a fault's text.
//!
//! `writes`, the waiting writes of a proxy and its lease table:
//! - `new`, which begins anew, with the leasing prefix `L/`;
//! - `hold KEY CREATE`: the key is held from here on, with an ownership key of this create revision and no record;
//! - `step NUMBER`: what becomes due from here on became due at this step;
//! - `ask TICKET REQUEST`, which hands a write in; `go`, by which waiting writes go on;
//! - `send CALL`, which sends the first due job under this number: its kind and its ticket, or `nothing`;
//! - `answer CALL SESSION NOW ANSWER`, under the live session of this number (0: none): `nothing`, `reply TICKET`, or `shape`;
//! - `lose CALL`: `nothing` or `failed TICKET`; `end`, by which the session ends; `give`, by which each key is given up;
//! - `entry KEY`: its create revision and phase, or `none`; `quiet KEY`: the moment before which it isn't acquired;
//! - `since`: since which step the first due call of a write is due, or `none`.
//!
//! `watches`, calls on shared watches:
//! - `seen HEADER`, which begins anew where the highest header delivered is this one; `begin STEP`, after which all that becomes due is
//!   due since this step; `number`, which takes a stream number for another stream;
//! - `ask TICKET WATCH`, `send`, `item STREAM ITEM`, `cut STREAM`, `take TICKET`, `split TICKET NEXT`, `leave TICKET`;
//! - `puts STREAM REVISION COUNT`: as many messages with a put of `a` each, from this revision on; `takes TICKET COUNT`: as many takes, of
//!   which the last is shown;
//! - `random SEED STEPS`: as many calls in a random order on watches of a made-up store, after which all that is due is sent, pushed
//!   and taken: how many items were not what the store's puts say, how many watches haven't had all of them, and whether there were as
//!   many items as a tenth of the steps.
#![tactic(auto)]

mod draw;
mod events;
mod proxies;
mod proxy;
mod random;
mod store;
mod stores;
mod tables;
mod taker;
mod told;
mod watches;
mod writes;

use crate::tables::{Table, Tables};
use std::alloc::Global;
use table_rows::Wrong;

/// The table that is being tried, and how many of its outcomes there were and differed.
#[derive(Clone, Copy, Debug)]
struct Tried {
    table: Option<Table>,
    outcomes: u64,
    differing: u64,
}

impl Tried {
    fn new(table: Option<Table>) -> Tried {
        Tried {
            table,
            outcomes: 0,
            differing: 0,
        }
    }

    /// Takes a line: the name of the next table, a step, or what is to have come of the last one.
    fn take<R: Print>(&mut self, rt: &R, tables: &mut Tables, line: &str) -> Result<(), Wrong> {
        if let Some(name) = line.strip_prefix("table ") {
            self.show(rt)?;
            *self = Tried::new(Some(Table::named(name)?));
        } else if !line.is_empty() && !line.starts_with("#") {
            let table = self.table.ok_or(Wrong::Word)?;
            match line.strip_prefix("= ") {
                None => tables.step(table, line)?,
                Some(wanted) => self.compare(rt, tables.told(table), wanted)?,
            }
        }
        Ok(())
    }

    fn compare<R: Print>(&mut self, rt: &R, came: &str, wanted: &str) -> Result<(), Wrong> {
        self.outcomes = self.outcomes.saturating_add(1);
        if came != wanted {
            self.differing = self.differing.saturating_add(1);
            println!(rt; "wanted {wanted}\ncame   {came}")?;
        }
        Ok(())
    }

    /// Shows the counts of the table, where there is one.
    fn show<R: Print>(&self, rt: &R) -> Result<(), Wrong> {
        if let Some(table) = self.table {
            let (outcomes, differing) = (self.outcomes, self.differing);
            println!(rt; "{}: {outcomes} outcomes, {differing} differ", table.name())?;
        }
        Ok(())
    }
}

/// Tries all tables of the input.
fn try_tables<R: Input + Print>(rt: &R, alloc: Global, tables: &mut Tables) -> Result<(), Wrong> {
    let mut tried = Tried::new(None);
    for line in rt.lines(alloc) {
        let line = line?;
        tried.take(rt, tables, line.as_str())?;
    }
    tried.show(rt)
}

fn main(rt: HostRuntime) -> Result<(), Wrong> {
    // What the steps are taken on is large, and each way out of who owns it is dear to prove: others borrow it.
    let mut tables = Tables::new(rt.alloc())?;
    let told = try_tables(&rt, rt.alloc(), &mut tables);
    drop(tables);
    told
}
