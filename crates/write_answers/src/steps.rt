ghost use Rattle.std.specs.Prelude.{◌≡◌, Bool, map, IfOk, OnOk, OnErr};
ghost use Rattle.known_asks.specs.Changes.{restaged, staged_by};
ghost use Rattle.core_laws.specs.PlainReads.InPlace.{placed_by};
ghost use Rattle.read_model.specs.Fits.{ReadsOk};
ghost use Rattle.read_model.specs.WriteAnswers.{settled_ask, wait_answered};
ghost use Rattle.wait_model.specs.Endings.{answered};
ghost use Rattle.wait_model.specs.State.{owned};
ghost use Rattle.revoke_core.specs.Readings.{taken};
ghost use Rattle.write_answers.specs.Answered.{parts, moment, AllWait, stage_after, after_asks, Leaves};

use crate::reach::{Reach, reach_of};
use crate::release::{After, AfterAt};
use acquire_rows::Acquires;
use etcd_types::{Answer, Header, NoMemory};
use known_asks::{Asks, Stage, Verdict, set_stages, waiting_changes, waiting_changes_at};
use lease_table::LeaseTable;
use revoke_core::{NotShape, ReadAnswer, Settled, Waits};
use std::alloc::Global;

/// An answer to the call of this number, and what is known when it comes.
#[derive(Debug, Drop)]
pub struct Told {
    pub call: u64,
    pub answer: Answer,
    pub when: When,
}

/// When an answer comes.
#[derive(Clone, Copy, Debug)]
pub struct When {
    /// The clock's reading, in milliseconds.
    pub now: u64,
    /// The number of the live session.
    pub session: Option<u64>,
    /// The header of the highest revision that was delivered.
    pub header: Header,
    /// What becomes due became due at this step.
    pub step: u64,
}

/// A call of a waiting write, a revoke call or a rescind is answered: what it settles is replied, and each read that waited for an
/// owner write that is over is decided again. `Shape` comes exactly where the answer can't be one to the call, which then counts as
/// lost; then, and where memory was wanting, all is as before. What each read waits for stands before the answer. So of those that wait it
/// looks at none where the answer changes no entry; at those of one key, and of keys that have the same number, where it is about the
/// entry of that key alone, as for a write of one key; and else at all.
pub fn answer_call(
    alloc: Global,
    told: Told,
    asks: &mut Asks,
    waits: &mut Waits,
    table: &mut LeaseTable,
    acquires: &Acquires,
) -> Result<(), NotShape>
    requires step { told.when.step ≡ waits.old.step }
    requires stand { AllWait table.old.entries acquires.now asks.old }
    ensures answered { (standing created : Bool)
        → ReadsOk standing (parts table.old.entries waits.old acquires.now asks.old)
        → Leaves result (parts table.new.entries waits.new acquires.now asks.new)
        (wait_answered (moment created told.when) told.call told.answer
        (parts table.old.entries waits.old acquires.now asks.old)) }
    ensures in_place { (created : Bool)
        → Leaves result (parts table.new.entries waits.new acquires.now asks.new)
        (placed_by (moment created told.when)
        (answered told.call told.answer told.when.session told.when.now
        (owned table.old.entries waits.old))
        (parts table.old.entries waits.old acquires.now asks.old)) }
    ensures err_asks { OnErr result (asks.new ≡ asks.old) }
    ensures err_waits { OnErr result (waits.new ≡ waits.old) }
    ensures err_entries { OnErr result (table.new.entries ≡ table.old.entries) }
{
    let Told { call, answer, when } = told;
    match waits.read_answer(call, answer, table) {
        Err(fault) => Err(fault),
        Ok(read) => {
            take(alloc, call, read, when, asks, waits, table, acquires)?;
            Ok(())
        }
    }
}

/// What was read of an answer is taken. Where memory was wanting all is as before.
fn take(
    alloc: Global,
    call: u64,
    read: ReadAnswer,
    when: When,
    asks: &mut Asks,
    waits: &mut Waits,
    table: &mut LeaseTable,
    acquires: &Acquires,
) -> Result<(), NoMemory>
    requires { AllWait table.old.entries acquires.now asks.old }
    ensures asks { OnOk result (asks.new ≡ after_asks when call read (parts table.old.entries waits.old acquires.now asks.old)) }
    ensures waits { OnOk result (waits.new ≡ (taken call read when.session when.now (owned table.old.entries waits.old)).own.waits) }
    ensures entries { OnOk result (table.new.entries ≡ (taken call read when.session when.now (owned table.old.entries waits.old)).own.entries) }
    ensures err_asks { OnErr result (asks.new ≡ asks.old) }
    ensures err_waits { OnErr result (waits.new ≡ waits.old) }
    ensures err_entries { OnErr result (table.new.entries ≡ table.old.entries) }
{
    let changes = changes_after(alloc, call, &read, when, asks, waits, table, acquires)?;
    let settled = waits.take_answer(call, read, when.session, when.now, table)?;
    set_stages(asks, changes);
    reply(asks, settled);
    Ok(())
}

/// The stages that reads come into once what was read is taken, by ticket. Nothing is changed yet. What each waits for stands before, and
/// so it does after where its key isn't reached.
fn changes_after(
    alloc: Global,
    call: u64,
    read: &ReadAnswer,
    when: When,
    asks: &Asks,
    waits: &Waits,
    table: &LeaseTable,
    acquires: &Acquires,
) -> Result<Vec<(u64, Stage)>, NoMemory>
    requires { AllWait table.now.entries acquires.now asks.now }
    ensures { IfOk result (λ changes. restaged changes.items asks.now
        ≡ map (staged_by (stage_after when call read.now
        (owned table.now.entries waits.now) acquires.now)) asks.now) }
{
    let write = waits.sender(call);
    let rule = After {
        header: when.header,
        step: when.step,
        session: when.session,
        read,
        write,
        table,
        acquires,
    };
    match reach_of(read, write) {
        Reach::Nowhere => Ok(Vec::new(alloc)),
        Reach::At(key) => {
            let rule = AfterAt { key, after: rule };
            Ok(waiting_changes_at(alloc, asks, key, &rule)?)
        }
        Reach::Anywhere => Ok(waiting_changes(alloc, asks, &rule)?),
    }
}

/// What is settled is replied. It takes no memory.
fn reply(asks: &mut Asks, settled: Settled)
    ensures { asks.new ≡ map (settled_ask settled) asks.old }
{
    match settled {
        Settled::Reply(ticket, answer) => {
            asks.set_stage(ticket, Stage::Replied(Verdict::Said(answer)));
        }
        Settled::Failed(ticket) => asks.set_stage(ticket, Stage::Replied(Verdict::Lost)),
        Settled::Nothing => {}
    }
}
