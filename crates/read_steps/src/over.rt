ghost use Rattle.std.specs.Prelude.{◌≡◌, ◌&&◌, ◌||◌, true, false, map, Some};
ghost use Rattle.std.specs.List.{list_all};
ghost use Rattle.std.specs.Option.{option_map};
ghost use Rattle.core_model.specs.ClockWork.{times_out, timed_out_ask};
ghost use Rattle.core_model.specs.Lookups.{has_ticket, ask_at};
ghost use Rattle.known_asks.specs.Asks.{one_changed};
ghost use Rattle.proxy_model.specs.Keyed.{at};
ghost use Rattle.read_model.specs.Acquires.{is_acquiring};
ghost use Rattle.read_model.specs.SessionEnd.{is_due_acquire, session_over};
ghost use Rattle.read_model.specs.TakingOff.{is_writes};
ghost use Rattle.wait_model.specs.Edits.{without};
ghost use Rattle.wait_model.specs.State.{owned};
ghost use Rattle.read_model.specs.PlainRead.{ask_key};
ghost use Rattle.read_core.specs.Falls.{stands_on, stand_elsewhere, fallen};
ghost use Rattle.read_steps.specs.Over.{OneOwner, forgot, falls_with, ended, ended_with};
ghost use Rattle.read_steps.specs.Parts.{ground, reads};
ghost use Rattle.read_steps.specs.Steps.{FitTogether, timed_out, left_by};

use crate::moment::Moment;
use crate::reads::Reads;
use acquire_rows::Acquires;
use etcd_types::Bytes;
use keyed_rows::RowTest;
use known_asks::{Asked, Asks, Stage, Verdict};
use lease_table::LeaseTable;
use read_core::{key_of, release, release_at};
use revoke_core::Waits;
use std::alloc::Global;

impl Reads {
    /// Each request that waited five seconds has a reply, all at once, and what stood on them falls. Where none did it takes constant
    /// time; else it looks at those that did, and where one of them acquired or wrote at the reads that wait. It takes no memory.
    pub fn time_out(&mut self, m: &Moment)
        requires { FitTogether self.old }
        ensures { self.new ≡ timed_out m.entry.now self.old }
    {
        if self.asks.may_time_out(m.now) {
            let ended = end_late(
                self.alloc,
                m.now,
                &mut self.asks,
                &mut self.waits,
                &mut self.table,
                &mut self.acquires,
            );
            if ended {
                release(
                    self.alloc,
                    &mut self.asks,
                    &self.table,
                    &self.acquires,
                    self.waits.step(),
                );
            }
        }
    }

    /// The client of this request left, where it is known, and what stood on the request falls. Where it acquired it looks at the reads of
    /// its key alone, where it wrote at those that wait, and else at no others. It takes no memory.
    pub fn leave(&mut self, m: &Moment, ticket: u64)
        requires { FitTogether self.old }
        ensures { self.new ≡ left_by m.entry.now ticket self.old }
    {
        // For the prover: no ticket is there twice.
        let _rows = self.asks.rows();
        end_by_ticket(
            self.alloc,
            ticket,
            &self.asks,
            &mut self.waits,
            &mut self.table,
            &mut self.acquires,
        );
        match self.asks.remove(ticket) {
            Some(left) => release_left(
                self.alloc,
                left,
                &mut self.asks,
                &self.table,
                &self.acquires,
                self.waits.step(),
            ),
            None => {}
        }
    }

    /// The session ended: all entries are gone, due acquires fall, and the reads that waited for either become calls. It takes no memory.
    pub fn end_session(&mut self, m: &Moment)
        ensures { self.new ≡ session_over m.entry.now self.old }
    {
        self.waits.end_session(&mut self.table);
        end_due(&mut self.waits, &mut self.acquires);
        release(
            self.alloc,
            &mut self.asks,
            &self.table,
            &self.acquires,
            self.waits.step(),
        );
    }
}

/// Each request whose time has passed at this reading has its reply, the one that was asked first before the others, and what stood on it
/// ends; whether there may be more than the requests themselves. It looks at these alone.
fn end_late(
    alloc: Global,
    now: u64,
    asks: &mut Asks,
    waits: &mut Waits,
    table: &mut LeaseTable,
    acquires: &mut Acquires,
) -> bool
    requires { OneOwner (owned table.old.entries waits.old) }
    ensures asks { asks.new ≡ map (timed_out_ask now) asks.old }
    ensures waits { waits.new ≡ (ended (times_out now) (reads table.old.entries waits.old acquires.old asks.old)).own.waits }
    ensures entries { table.new.entries ≡ (ended (times_out now) (reads table.old.entries waits.old acquires.old asks.old)).own.entries }
    ensures acquires { acquires.new ≡ (ended (times_out now) (reads table.old.entries waits.old acquires.old asks.old)).acquires }
    ensures nothing { result ≡ false → ended (times_out now) (reads table.old.entries waits.old acquires.old asks.old) ≡ ground table.old.entries waits.old acquires.old }
{
    let mut more = false;
    while let Some(ticket) = asks.late_ticket(now) {
        let ended = end_one(alloc, now, ticket, asks, waits, table, acquires);
        more = more || ended;
    }
    more
}

/// The request of this ticket, whose time has passed at this reading, has its reply, and what stood on it ends; whether there may be more
/// than the request itself. What ends with all whose time has passed stays the same.
fn end_one(
    alloc: Global,
    now: u64,
    ticket: u64,
    asks: &mut Asks,
    waits: &mut Waits,
    table: &mut LeaseTable,
    acquires: &mut Acquires,
) -> bool
    requires late { option_map (times_out now) (ask_at ticket asks.old) ≡ Some true }
    requires one { OneOwner (owned table.old.entries waits.old) }
    ensures asks { asks.new ≡ one_changed ticket (timed_out_ask now) asks.old }
    ensures one { OneOwner (owned table.new.entries waits.new) }
    ensures same { ended (times_out now) (reads table.new.entries waits.new acquires.new asks.new)
        ≡ ended (times_out now) (reads table.old.entries waits.old acquires.old asks.old) }
    ensures nothing { result ≡ false → ground table.new.entries waits.new acquires.new ≡ ground table.old.entries waits.old acquires.old }
{
    // For the prover: no ticket is there twice.
    let _rows = asks.rows();
    let more = end_by_ticket(alloc, ticket, asks, waits, table, acquires);
    asks.set_stage(ticket, Stage::Replied(Verdict::TimedOut));
    more
}

/// The request's write is forgotten, where it is one.
fn forget(ask: &Asked, waits: &mut Waits, table: &mut LeaseTable)
    ensures waits { waits.new ≡ (forgot ask.now (owned table.old.entries waits.old)).waits }
    ensures entries { table.new.entries ≡ (forgot ask.now (owned table.old.entries waits.old)).entries }
{
    if is_writes(&ask.stage) {
        waits.forget(ask.ticket, table);
    }
}

/// The request's due acquire falls, where there is one.
fn drop_due(alloc: Global, ask: &Asked, waits: &mut Waits, acquires: &mut Acquires)
    ensures waits { waits.new ≡ record waits.old { spoiled = without (falls_with ask.now acquires.old) waits.old.spoiled } }
    ensures acquires { acquires.new ≡ without (falls_with ask.now acquires.old) acquires.old }
{
    let empty = Bytes::new(alloc);
    let key = key_of(&ask.request, &empty);
    if acquires_due(ask, key, acquires) {
        waits.end_acquire(key);
        acquires.remove(key);
    }
}

/// Whether the request acquires this key, which is its own, and that acquire is due.
fn acquires_due(ask: &Asked, key: &Bytes, acquires: &Acquires) -> bool
    requires { key.now ≡ ask_key ask.now }
    ensures { result ≡ (is_acquiring ask.now.stage && is_due_acquire (at acquires.now (ask_key ask.now))) }
{
    is_acquiring(&ask.stage) && acquires.is_due(key)
}

/// Each read becomes a call whose acquire or owner write was over with this request, which left. Where it neither acquired nor wrote all
/// that they wait for stands, and where it acquired all but what waits at its key.
fn release_after(
    alloc: Global,
    left: &Asked,
    asks: &mut Asks,
    table: &LeaseTable,
    acquires: &Acquires,
    step: u64,
)
    requires acquired { is_acquiring left.now.stage ≡ true → stand_elsewhere (ask_key left.now) table.now.entries acquires.now asks.old ≡ true }
    requires neither { is_acquiring left.now.stage || is_writes left.now.stage ≡ false → list_all (stands_on table.now.entries acquires.now) asks.old ≡ true }
    ensures { asks.new ≡ map (fallen step table.now.entries acquires.now) asks.old }
{
    match left.stage {
        Stage::Acquiring => {
            let empty = Bytes::new(alloc);
            let key = key_of(&left.request, &empty);
            release_at(alloc, asks, key, table, acquires, step);
        }
        Stage::Writes => release(alloc, asks, table, acquires, step),
        _ => {}
    }
}

/// The same of a request that is known no more.
fn release_left(
    alloc: Global,
    left: Asked,
    asks: &mut Asks,
    table: &LeaseTable,
    acquires: &Acquires,
    step: u64,
)
    requires acquired { is_acquiring left.stage ≡ true → stand_elsewhere (ask_key left) table.now.entries acquires.now asks.old ≡ true }
    requires neither { is_acquiring left.stage || is_writes left.stage ≡ false → list_all (stands_on table.now.entries acquires.now) asks.old ≡ true }
    ensures { asks.new ≡ map (fallen step table.now.entries acquires.now) asks.old }
{
    release_after(alloc, &left, asks, table, acquires, step);
}

/// What ends with the request of this ticket; whether there may be more than the request itself.
fn end_by_ticket(
    alloc: Global,
    ticket: u64,
    asks: &Asks,
    waits: &mut Waits,
    table: &mut LeaseTable,
    acquires: &mut Acquires,
) -> bool
    ensures waits { waits.new ≡ (ended (has_ticket ticket) (reads table.old.entries waits.old acquires.old asks.now)).own.waits }
    ensures entries { table.new.entries ≡ (ended (has_ticket ticket) (reads table.old.entries waits.old acquires.old asks.now)).own.entries }
    ensures acquires { acquires.new ≡ (ended (has_ticket ticket) (reads table.old.entries waits.old acquires.old asks.now)).acquires }
    ensures nothing { result ≡ false → ended (has_ticket ticket) (reads table.old.entries waits.old acquires.old asks.now) ≡ ground table.old.entries waits.old acquires.old }
{
    // For the prover: no ticket is there twice.
    let _rows = asks.rows();
    match asks.find(ticket) {
        Some(ask) => end_if_more(alloc, ask, waits, table, acquires),
        None => false,
    }
}

/// What ends with this request; whether there may be more than the request itself.
fn end_if_more(
    alloc: Global,
    ask: &Asked,
    waits: &mut Waits,
    table: &mut LeaseTable,
    acquires: &mut Acquires,
) -> bool
    ensures waits { waits.new ≡ (ended_with ask.now (ground table.old.entries waits.old acquires.old)).own.waits }
    ensures entries { table.new.entries ≡ (ended_with ask.now (ground table.old.entries waits.old acquires.old)).own.entries }
    ensures acquires { acquires.new ≡ (ended_with ask.now (ground table.old.entries waits.old acquires.old)).acquires }
    ensures nothing { result ≡ false → ended_with ask.now (ground table.old.entries waits.old acquires.old) ≡ ground table.old.entries waits.old acquires.old }
{
    let more = ends_more(&ask.stage);
    if more {
        forget(ask, waits, table);
        drop_due(alloc, ask, waits, acquires);
        true
    } else {
        false
    }
}

/// All due acquires fall.
fn end_due(waits: &mut Waits, acquires: &mut Acquires)
    ensures waits { waits.new ≡ record waits.old { spoiled = without (λ k. is_due_acquire (at acquires.old k)) waits.old.spoiled } }
    ensures acquires { acquires.new ≡ without (λ k. is_due_acquire (at acquires.old k)) acquires.old }
{
    // For the prover: the acquires are in the order of their keys.
    let _rows = acquires.as_slice();
    waits.end_acquires(&DueAt { acquires });
    acquires.remove_due();
}

/// Whether the acquire of a key is due.
#[derive(Drop)]
struct DueAt<'a> {
    acquires: &'a Acquires,
}

impl<'a> RowTest<bool> for DueAt<'a> {
    ghost passes = { λ s k spoiled. is_due_acquire (at s.acquires.now k) };

    fn passes(&self, key: &Bytes, _spoiled: &bool) -> bool {
        self.acquires.is_due(key)
    }
}

/// Whether something else ends with a request at this stage.
fn ends_more(stage: &Stage) -> bool
    ensures { result ≡ (is_acquiring stage.now || is_writes stage.now) }
{
    is_acquiring(stage) || is_writes(stage)
}

fn is_acquiring(stage: &Stage) -> bool
    ensures { result ≡ is_acquiring stage.now }
{
    matches!(stage, Stage::Acquiring)
}

fn is_writes(stage: &Stage) -> bool
    ensures { result ≡ is_writes stage.now }
{
    matches!(stage, Stage::Writes)
}
