ghost use Rattle.std.specs.Prelude.{◌≡◌, ℕ, Option, true, not, filter, IfOk, OnOk, OnErr, []};
ghost use Rattle.std.specs.List.{list_any};
ghost use Rattle.std.specs.Option.{option_copied, option_map};
ghost use Rattle.wait_model.specs.Asked.{submitted, acquire_begun, acquire_spoiled, acquire_ended, is_spoiled, is_true};
ghost use Rattle.wait_model.specs.Covers.{covers};
ghost use Rattle.wait_model.specs.DueOrder.{first_place};
ghost use Rattle.wait_model.specs.Endings.{answered, lost, forgotten};
ghost use Rattle.wait_model.specs.Fits.{is_write};
ghost use Rattle.wait_model.specs.Leaving.{quiet_of, moment_or_zero};
ghost use Rattle.wait_model.specs.LeasingStream.{resynced, all_given_up};
ghost use Rattle.wait_model.specs.Notices.{all_noticed};
ghost use Rattle.wait_model.specs.Passes.{proceeded};
ghost use Rattle.wait_model.specs.Sent.{job_sent};
ghost use Rattle.wait_model.specs.SessionEnd.{session_ended};
ghost use Rattle.wait_model.specs.State.{first_waits, owned, step_begun};
ghost use Rattle.wait_model.specs.Writes.{first_by, sends};
ghost use Rattle.revoke_core.specs.Readings.{IsRead, taken};
ghost use Rattle.revoke_core.specs.Sends.{after_sending};

use crate::answers::{ReadAnswer, read_call};
use crate::gone::{end_all, lose_all};
use crate::losses::{forget_write, lose_job};
use crate::notices::take_all;
use crate::passes::{is_covered, pass};
use crate::places::{By, place_of, take_job};
use crate::rests::{Left, known_rest, left_of};
use crate::sends::{call_due, first_rescind, send_call, send_rescind};
use crate::takes::{When, take_read};
use etcd_types::{Answer, Bytes, Event, List, NoMemory, Request};
use keyed_rows::{RowTest, Rows};
use lease_table::LeaseTable;
use lease_txn::NotShape;
use revoke_calls::{first_place, new_write, notices_of, rescind_due};
use std::alloc::Global;
use std::marker::Model;
use wait_model::{Due, Place, Settled, WaitCall, Write};

/// The unanswered writes, the acquires that are due or out, and what both wait for. The lease table stands beside it.
#[derive(Debug, Drop)]
pub struct Waits {
    alloc: Global,
    prefix: Bytes,
    step: u64,
    writes: Vec<Write>,
    spoiled: Rows<bool>,
    quiet: Rows<u64>,
    out: Vec<WaitCall>,
    /// What the last pass left of the writes, where none changed since.
    left: Option<Left>,
}

impl Model for Waits {
    ghost use Rattle.wait_model.specs.State.{Waits as Value'};
    ghost use Rattle.revoke_core.specs.Rests.{IsKept};
    ghost use Rattle.std.specs.Coded.{codes};
    ghost use Rattle.etcd_types.specs.contracts.operation.Op as operation;

    ghost Value = { Value' };

    ghost coded = { Prim.hlevel (codes, operation.the_row.coded) };

    ghost view = { λ w. record { prefix = w.prefix; step = w.step; writes = w.writes.items; spoiled = w.spoiled; quiet = w.quiet; out = w.out.items } };

    ghost invariant = { λ w. IsKept w.writes.items w.left };
}

impl Waits {
    /// No writes and no acquires, under this leasing prefix. It takes no memory.
    pub fn new(alloc: Global, prefix: Bytes) -> Waits
        ensures { result ≡ first_waits prefix }
    {
        Waits {
            alloc,
            prefix,
            step: 0,
            writes: Vec::new(alloc),
            spoiled: Rows::new(alloc),
            quiet: Rows::new(alloc),
            out: Vec::new(alloc),
            left: None,
        }
    }

    /// What becomes due from here on became due at this step.
    pub fn begin_step(&mut self, step: u64)
        ensures { self.new ≡ (step_begun step (owned [] self.old)).waits }
    {
        self.step = step;
    }

    /// Hands in a write, which waits behind all others. Where memory was wanting all is as before.
    pub fn submit(&mut self, ticket: u64, request: Request) -> Result<(), NoMemory>
        requires { is_write request ≡ true }
        ensures ok { OnOk result (self.new ≡ (submitted ticket request (owned [] self.old)).waits) }
        ensures err { OnErr result (self.new ≡ self.old) }
    {
        let write = new_write(self.alloc, ticket, request)?;
        self.writes.push(write)?;
        self.left = None;
        Ok(())
    }

    /// An acquire of the key is due. Where memory was wanting all is as before.
    pub fn begin_acquire(&mut self, key: &Bytes) -> Result<(), NoMemory>
        ensures ok { OnOk result (self.new ≡ (acquire_begun key.now (owned [] self.old)).waits) }
        ensures err { OnErr result (self.new ≡ self.old) }
    {
        self.spoiled.put(key.copy(self.alloc)?, false)?;
        Ok(())
    }

    /// The acquire of the key is over; whether it was spoiled.
    pub fn end_acquire(&mut self, key: &Bytes) -> bool
        ensures spoiled { result ≡ is_spoiled key.now (owned [] self.old) }
        ensures waits { self.new ≡ (acquire_ended key.now (owned [] self.old)).waits }
    {
        let spoiled = is_true(self.spoiled.find(key));
        self.spoiled.remove(key);
        spoiled
    }

    /// The acquires are over whose keys pass the test, as it is of their marks.
    pub fn end_acquires<T: RowTest<bool>>(&mut self, test: &T)
        ensures { self.new ≡ record self.old { spoiled = filter (λ e. not (T.passes test.now e.0 e.1)) self.old.spoiled } }
    {
        self.spoiled.remove_where(test);
    }

    /// Whether the acquire of the key is spoiled.
    pub fn is_spoiled(&self, key: &Bytes) -> bool
        ensures { result ≡ is_spoiled key.now (owned [] self.now) }
    {
        is_true(self.spoiled.find(key))
    }

    /// The leasing prefix.
    pub fn prefix(&self) -> &Bytes
        ensures { result.now ≡ self.now.prefix }
    {
        &self.prefix
    }

    /// What becomes due now is due since this step.
    pub fn step(&self) -> u64
        ensures { result ≡ self.now.step }
    {
        self.step
    }

    /// The acquire of the key is spoiled, where one is due or out: it holds nothing when it is answered.
    pub fn spoil(&mut self, key: &Bytes)
        ensures { self.new ≡ (acquire_spoiled key.now (owned [] self.old)).waits }
    {
        self.spoiled.replace(key, true);
    }

    /// The moment of the proxy's clock before which no acquire of the key begins, in milliseconds; 0 where none bars it.
    pub fn quiet(&self, key: &Bytes) -> u64
        ensures { result ≡ quiet_of (owned [] self.now) key.now }
    {
        moment_or_zero(self.quiet.find(key))
    }

    /// Whether an unanswered write covers the key.
    pub fn is_written(&self, key: &Bytes) -> bool
        ensures { result ≡ list_any (λ w. covers w key.now) self.now.writes }
    {
        is_covered(&self.writes, key)
    }

    /// Takes each waiting write as far as its rule lets it, in order of asking. Where no write changed since the last time, and none
    /// waits but behind an earlier one, it takes constant time.
    pub fn proceed(&mut self, table: &mut LeaseTable)
        ensures waits { self.new ≡ (proceeded (owned table.old.entries self.old)).waits }
        ensures entries { table.new.entries ≡ (proceeded (owned table.old.entries self.old)).entries }
    {
        if !known_rest(&self.left) {
            pass(&mut self.writes, &mut self.spoiled, table, self.step);
            self.left = Some(left_of(&self.writes));
        }
    }

    /// What the answer says to the call of this number. `Shape` comes exactly where it can't be one to the call, which then counts as
    /// lost.
    pub fn read_answer(
        &self,
        call: u64,
        answer: Answer,
        table: &LeaseTable,
    ) -> Result<ReadAnswer, NotShape>
        ensures { (session : Option ℕ) (now : ℕ)
            → IsRead result (λ r. taken call r session now (owned table.now.entries self.now))
            (answered call answer session now (owned table.now.entries self.now)) }
    {
        // For the prover: the entries are in the order of their keys.
        let _count = table.len();
        read_call(
            self.alloc,
            &self.prefix,
            call,
            answer,
            &self.writes,
            &self.out,
            table,
        )
    }

    /// The call of this number is answered by what was read of the answer, under the live session of this number, at this reading of
    /// the clock in milliseconds. Where memory was wanting all is as before.
    pub fn take_answer(
        &mut self,
        call: u64,
        read: ReadAnswer,
        session: Option<u64>,
        now: u64,
        table: &mut LeaseTable,
    ) -> Result<Settled, NoMemory>
        ensures waits { OnOk result (self.new ≡ (taken call read session now (owned table.old.entries self.old)).own.waits) }
        ensures entries { OnOk result (table.new.entries ≡ (taken call read session now (owned table.old.entries self.old)).own.entries) }
        ensures settled { IfOk result (λ settled. settled ≡ (taken call read session now (owned table.old.entries self.old)).settled) }
        ensures err { OnErr result (self.new ≡ self.old) }
        ensures err_entries { OnErr result (table.new.entries ≡ table.old.entries) }
    {
        let step = self.step;
        let when = When { session, now, step };
        let settled = take_read(
            self.alloc,
            call,
            read,
            when,
            &mut self.writes,
            &mut self.quiet,
            table,
        )?;
        drop(take_job(&mut self.out, call));
        self.left = None;
        Ok(settled)
    }

    /// The write whose own call has this number.
    pub fn sender(&self, call: u64) -> Option<&Write>
        ensures { option_copied result ≡ first_by (sends call) self.now.writes }
    {
        match place_of(&self.writes, By::Sends(call)) {
            Some(at) => Some(&self.writes[at]),
            None => None,
        }
    }

    /// The call of this number was lost.
    pub fn lost(&mut self, call: u64, table: &mut LeaseTable) -> Settled
        ensures waits { self.new ≡ (lost call (owned table.old.entries self.old)).own.waits }
        ensures entries { table.new.entries ≡ (lost call (owned table.old.entries self.old)).own.entries }
        ensures settled { result ≡ (lost call (owned table.old.entries self.old)).settled }
    {
        let job = take_job(&mut self.out, call);
        self.left = None;
        lose_job(&mut self.writes, call, job, table)
    }

    /// A message on the leasing stream, under the live session of this number. Where memory was wanting the writes and entries are
    /// as before.
    pub fn notice(
        &mut self,
        events: &List<Event>,
        session: Option<u64>,
        table: &mut LeaseTable,
    ) -> Result<(), NoMemory>
        ensures waits { OnOk result (self.new ≡ (all_noticed session events.now (owned table.old.entries self.old)).waits) }
        ensures entries { OnOk result (table.new.entries ≡ (all_noticed session events.now (owned table.old.entries self.old)).entries) }
        ensures err { OnErr result (self.new ≡ self.old) }
        ensures err_entries { OnErr result (table.new.entries ≡ table.old.entries) }
    {
        let notices = notices_of(self.alloc, &self.prefix, events)?;
        table.reserve(notices.len() as u64)?;
        take_all(notices, session, &mut self.writes, &mut self.spoiled, table);
        self.left = None;
        Ok(())
    }

    /// The first due job, which is then out under this number, which no call had before; nothing exactly where none is due. Where
    /// memory was wanting all is as before.
    pub fn next_job(&mut self, call: u64, table: &mut LeaseTable) -> Result<Option<Due>, NoMemory>
        ensures due { IfOk result (λ due. due ≡ option_map (λ sent. sent.due) (job_sent call (owned table.old.entries self.old))) }
        ensures waits { OnOk result (self.new ≡ (after_sending (owned table.old.entries self.old) (job_sent call (owned table.old.entries self.old))).waits) }
        ensures entries { OnOk result (table.new.entries ≡ (after_sending (owned table.old.entries self.old) (job_sent call (owned table.old.entries self.old))).entries) }
        ensures err { OnErr result (self.new ≡ self.old) }
        ensures err_table { OnErr result (table.new ≡ table.old) }
    {
        match first_rescind(self.alloc, table)? {
            Some((key, create)) => {
                let out = &mut self.out;
                let due = send_rescind(self.alloc, &self.prefix, out, call, key, create, table)?;
                Ok(Some(due))
            }
            None => {
                let due = send_call(
                    self.alloc,
                    &self.prefix,
                    &mut self.writes,
                    &mut self.out,
                    call,
                    table,
                )?;
                self.left = None;
                Ok(due)
            }
        }
    }

    /// What the first due job will send; nothing exactly where none is due. Nothing is sent yet.
    pub fn first_job(&self, table: &LeaseTable) -> Result<Option<Due>, NoMemory>
        ensures { IfOk result (λ due. (call : ℕ) → due ≡ option_map (λ sent. sent.due) (job_sent call (owned table.now.entries self.now))) }
    {
        match first_rescind(self.alloc, table)? {
            Some((key, create)) => {
                let due = rescind_due(self.alloc, &self.prefix, &key, create)?;
                Ok(Some(due))
            }
            None => {
                let due = call_due(self.alloc, &self.prefix, &self.writes, table)?;
                Ok(due)
            }
        }
    }

    /// The request of this ticket timed out or left, and its write with it.
    pub fn forget(&mut self, ticket: u64, table: &mut LeaseTable)
        ensures waits { self.new ≡ (forgotten ticket (owned table.old.entries self.old)).waits }
        ensures entries { table.new.entries ≡ (forgotten ticket (owned table.old.entries self.old)).entries }
    {
        forget_write(&mut self.writes, ticket, table);
        self.left = None;
    }

    /// Where the first due call of a write stands among all due jobs; nothing where none is due. Due rescinds stand at the table.
    /// It takes constant time where no write changed since the last pass.
    pub fn first_place(&self) -> Option<Place>
        ensures { result ≡ first_place self.now.writes }
    {
        match self.left {
            Some(left) => left.first,
            None => first_place(&self.writes),
        }
    }

    /// The session ended: all entries are gone, and what was due under it becomes due without it.
    pub fn end_session(&mut self, table: &mut LeaseTable)
        ensures waits { self.new ≡ (session_ended (owned table.old.entries self.old)).waits }
        ensures entries { table.new.entries ≡ (session_ended (owned table.old.entries self.old)).entries }
    {
        table.drop_all();
        end_all(&mut self.writes);
        self.left = None;
    }

    /// The leasing stream began anew: all owners that were found count as gone.
    pub fn resynced(&mut self)
        ensures { self.new ≡ (resynced (owned [] self.old)).waits }
    {
        lose_all(&mut self.writes);
        self.left = None;
    }

    /// The leasing stream lost what it was to tell: each key is given up, and each acquire is spoiled.
    pub fn give_all_up(&mut self, table: &mut LeaseTable)
        ensures waits { self.new ≡ (all_given_up (owned table.old.entries self.old)).waits }
        ensures entries { table.new.entries ≡ (all_given_up (owned table.old.entries self.old)).entries }
    {
        table.give_up_all();
        self.spoiled.raise_all();
    }
}

fn is_true(flag: Option<&bool>) -> bool
    ensures { result ≡ is_true (option_copied flag.entry) }
{
    match flag {
        Some(flag) => *flag,
        None => false,
    }
}

fn moment_or_zero(moment: Option<&u64>) -> u64
    ensures { result ≡ moment_or_zero (option_copied moment.entry) }
{
    match moment {
        Some(moment) => *moment,
        None => 0,
    }
}
