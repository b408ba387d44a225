ghost use Rattle.std.specs.Prelude.{◌≡◌, ◌++◌, ◌∷◌, [], map, filter, nat_le, not, true, None, OnOk, OnErr};
ghost use Rattle.std.specs.Option.{option_copied};
ghost use Rattle.core_model.specs.Fits.{once};
ghost use Rattle.core_model.specs.Lookups.{ask_at, without_ask};
ghost use Rattle.core_model.specs.Takes.{least_ready};
ghost use Rattle.read_model.specs.PlainRead.{in_stage};
ghost use Rattle.known_asks.specs.Asks.{one_changed, none_times_out};
ghost use Rattle.known_asks.specs.Callers.{AreCallers, IsFirstCaller};
ghost use Rattle.known_asks.specs.Alike.{IsNextAlikeOf, is_kin, all_narrow};
ghost use Rattle.ask_tables.specs.Marks.{is_alike};
ghost use Rattle.known_asks.specs.Firsts.{IsNext, IsNextOf, IsNextByOf, IsFirstDueOf};
ghost use Rattle.ask_tables.specs.KeyMarks.{by_key, ticket_mark};
ghost use Rattle.known_asks.specs.OneByOne.{first_of};
ghost use Rattle.ask_tables.specs.RowMarks.{has_key, by_group};
ghost use Rattle.known_asks.specs.Times.{IsOldestOf, IsLateOf};

use crate::callers::{Callers, callers_before, calls_as};
use crate::kin::Kin;
use crate::places::{change_row, change_rows, places, row_of, set_row};
use crate::rule::Rule;
use crate::stages::ready_ticket;
use crate::times::{is_late, late_ticket, only_unanswered};
use ask_tables::{CALL_OUT, DUE, REPLIED, Tables, only_alike, only_at_key, only_keyed};
use end_rows::EndRows;
use etcd_types::NoMemory;
use mark_rows::Mark;
use numbered_rows::place;
use read_model::{Asked, Stage};
use std::alloc::Global;
use std::marker::Model;

/// The requests that a proxy knows, in order of asking.
#[derive(Debug, Drop)]
pub struct Asks {
    /// By numbers that rise in the order of asking.
    rows: Vec<(u64, Asked)>,
    /// The number of each ticket's row, by ticket.
    index: EndRows<(u64, u64)>,
    /// The number of each row, by its marks.
    tables: Tables,
    /// The number of the next row.
    next: u64,
}

impl Model for Asks {
    ghost use Rattle.std.specs.Prelude.{map, List};
    ghost use Rattle.std.specs.Coded.{codes};
    ghost use Rattle.etcd_types.specs.contracts.operation.Op as operation;
    ghost use Rattle.etcd_types.specs.contracts.answer.Body as body;
    ghost use Rattle.read_model.specs.declared.asked.Asked.{Asked as Ask};
    ghost use Rattle.known_asks.specs.Indexed.{IsKept};

    ghost Value = { List Ask };

    ghost coded = { Prim.hlevel (codes, operation.the_row.coded, body.the_row.coded) };

    ghost view = { λ a. map (λ r. r.1) a.rows.items };

    ghost invariant = { λ a. IsKept a.rows.items a.index a.tables a.next };
}

impl Asks {
    /// None. It takes no memory.
    pub fn new(alloc: Global) -> Asks
        ensures { result ≡ [] }
    {
        Asks {
            rows: Vec::new(alloc),
            index: EndRows::new(alloc),
            tables: Tables::new(alloc),
            next: 0,
        }
    }

    /// All of them, each under a number that rises in the order of asking. No ticket stands twice.
    pub fn rows(&self) -> &[(u64, Asked)]
        ensures all { map (λ r. r.1) result.now ≡ self.now }
        ensures once { once (map (λ a. a.ticket) self.now) ≡ true }
    {
        &self.rows
    }

    /// The one of this ticket.
    pub fn find(&self, ticket: u64) -> Option<&Asked>
        ensures { option_copied result ≡ ask_at ticket self.now }
    {
        match places(&self.rows, self.index.as_slice(), ticket) {
            Some((_, row)) => Some(&self.rows[row].1),
            None => None,
        }
    }

    /// One more, behind all. Its ticket is new. Where memory is wanting all is as before.
    pub fn push(&mut self, ask: Asked) -> Result<(), NoMemory>
        requires { ask_at ask.ticket self.old ≡ None }
        ensures ok { OnOk result (self.new ≡ self.old ++ ask ∷ []) }
        ensures err { OnErr result (self.new ≡ self.old) }
    {
        // The numbers outlast any machine.
        if self.next == u64::MAX {
            return Err(NoMemory);
        }
        self.rows.reserve(1)?;
        let Err(gap) = place(self.index.as_slice(), ask.ticket) else {
            unreachable!()
        };
        self.index.insert(gap, (ask.ticket, self.next))?;
        if let Err(full) = self.tables.put(&ask, self.next) {
            self.index.remove(gap);
            return Err(full);
        }
        self.rows.push((self.next, ask)).unwrap();
        self.next += 1;
        Ok(())
    }

    /// The one of this ticket is taken out. It takes no memory.
    pub fn remove(&mut self, ticket: u64) -> Option<Asked>
        ensures found { result ≡ ask_at ticket self.old }
        ensures rest { self.new ≡ without_ask ticket self.old }
    {
        match places(&self.rows, self.index.as_slice(), ticket) {
            Some((at, row)) => {
                self.index.remove(at);
                let taken = self.rows.remove(row);
                self.tables.remove(&taken.1, taken.0);
                Some(taken.1)
            }
            None => None,
        }
    }

    /// The one of this ticket is in this stage now. It takes no memory.
    pub fn set_stage(&mut self, ticket: u64, stage: Stage)
        ensures { self.new ≡ one_changed ticket (in_stage stage) self.old }
    {
        if let Some((_, row)) = places(&self.rows, self.index.as_slice(), ticket) {
            set_row(&mut self.rows[row], &mut self.tables, stage);
        }
    }

    /// The one of this ticket is changed by the rule.
    pub fn change<R: Rule>(&mut self, ticket: u64, rule: &R)
        ensures { self.new ≡ one_changed ticket (R.changed rule.now) self.old }
    {
        if let Some((_, row)) = places(&self.rows, self.index.as_slice(), ticket) {
            change_row(&mut self.rows[row], &mut self.tables, rule);
        }
    }

    /// Each is changed by the rule.
    pub fn change_each<R: Rule>(&mut self, rule: &R)
        ensures { self.new ≡ map (R.changed rule.now) self.old }
    {
        change_rows(&mut self.rows, &mut self.tables, rule);
    }

    /// Whether one times out at this reading. It takes constant time.
    pub fn may_time_out(&self, now: u64) -> bool
        ensures { result ≡ not (none_times_out now self.now) }
    {
        match self.tables.times.all() {
            [row, ..] => is_late(&row.0, now),
            [] => false,
        }
    }

    /// The ticket of one that times out at this reading: of those without a reply the one that was asked first. It takes logarithmic
    /// time.
    pub fn late_ticket(&self, now: u64) -> Option<u64>
        ensures { IsLateOf result now self.now }
    {
        match self.oldest_ask() {
            Some(ask) => late_ticket(ask, now),
            None => None,
        }
    }

    /// The one without a reply that was asked first.
    fn oldest_ask(&self) -> Option<&Asked>
        ensures { IsOldestOf (option_copied result) self.now }
    {
        match self.tables.times.from(&Mark::new(0, 0, 0)) {
            [row, ..] => only_unanswered(row_of(&self.rows, row.1)),
            [] => None,
        }
    }

    /// The least ticket whose reply stands.
    pub fn ready(&self) -> Option<u64>
        ensures { result ≡ least_ready None self.now }
    {
        match self.first_from(&Mark::new(REPLIED, 0, 0)) {
            Some(ask) => ready_ticket(ask),
            None => None,
        }
    }

    /// The least ticket from this one on whose reply stands.
    pub fn ready_from(&self, ticket: u64) -> Option<u64>
        ensures { result ≡ least_ready None (filter (λ a. nat_le ticket a.ticket) self.now) }
    {
        match self.first_from(&Mark::new(REPLIED, 0, ticket)) {
            Some(ask) => ready_ticket(ask),
            None => None,
        }
    }

    /// The one that is due first: since the earliest step, and of one step the least ticket.
    pub fn first_due(&self) -> Option<&Asked>
        ensures { IsFirstDueOf (option_copied result) self.now }
    {
        self.first_from(&Mark::new(DUE, 0, 0))
    }

    /// Those whose own call this is.
    pub fn callers(&self, call: u64) -> Callers
        ensures callers { AreCallers result call self.now }
        ensures once { once (map (λ a. a.ticket) self.now) ≡ true }
    {
        // For the prover: no ticket is there twice.
        let _rows = self.rows();
        match self.first_from(&Mark::new(CALL_OUT, call, 0)) {
            Some(ask) => self.callers_at(ask, call),
            None => Callers::Nobody,
        }
    }

    /// Those whose own call this is, where this request is the first one that can be such.
    fn callers_at(&self, ask: &Asked, call: u64) -> Callers
        requires { IsNext (5 ∷ call ∷ 0 ∷ []) ask.now self.now }
        ensures { AreCallers result call self.now }
    {
        if calls_as(ask, call) {
            self.callers_from(ask.ticket, call)
        } else {
            Callers::Nobody
        }
    }

    /// Those whose own call this is, where the request of this ticket is the first of them.
    fn callers_from(&self, ticket: u64, call: u64) -> Callers
        requires { IsFirstCaller ticket call self.now }
        ensures { AreCallers result call self.now }
    {
        match self.first_from(&Mark::new(CALL_OUT, call, ticket.saturating_add(1))) {
            Some(ask) => callers_before(ask, ticket, call),
            None => Callers::One(ticket),
        }
    }

    /// The first one of this kin from this ticket on.
    pub(crate) fn next_alike(&self, kin: Kin, from: u64) -> Option<&Asked>
        ensures next { IsNextAlikeOf (is_kin kin) from (option_copied result) self.now }
        ensures narrow { all_narrow self.now ≡ true }
        ensures once { once (map (λ a. a.ticket) self.now) ≡ true }
    {
        // For the prover: no ticket is there twice.
        let _rows = self.rows();
        match kin {
            Kin::Stage(rank, number) => self.next_by_stage(rank, number, from),
            Kin::Key(number) => self.next_at_key(number, from),
        }
    }

    /// The first one of this rank and number from this ticket on.
    fn next_by_stage(&self, rank: u64, number: u64, from: u64) -> Option<&Asked>
        ensures next { IsNextAlikeOf (is_alike rank number) from (option_copied result) self.now }
        ensures narrow { all_narrow self.now ≡ true }
    {
        match self.first_from(&Mark::new(rank, number, from)) {
            Some(ask) => only_alike(ask, rank, number),
            None => None,
        }
    }

    /// The first read that waits at a key of this number from this ticket on.
    fn next_at_key(&self, number: u64, from: u64) -> Option<&Asked>
        ensures next { IsNextAlikeOf (has_key by_key 0 number) from (option_copied result) self.now }
        ensures narrow { all_narrow self.now ≡ true }
    {
        match self.first_at_key(&Mark::new(0, number, from)) {
            Some(ask) => only_at_key(ask, number),
            None => None,
        }
    }

    /// The first one, in the order of the marks of keys, that doesn't come before this mark.
    fn first_at_key(&self, mark: &Mark) -> Option<&Asked>
        ensures next { IsNextByOf (ticket_mark by_key) mark.now (option_copied result) self.now }
        ensures narrow { all_narrow self.now ≡ true }
    {
        match self.tables.keys.from(mark) {
            [row, ..] => Some(row_of(&self.rows, row.1)),
            [] => None,
        }
    }

    /// The first keepalive of this kind and lease, in the order of asking.
    pub(crate) fn first_grouped(&self, kind: u64, lease: u64) -> Option<&Asked>
        ensures { option_copied result ≡ first_of (has_key by_group kind lease) self.now }
    {
        match self.tables.groups.from(&Mark::new(kind, lease, 0)) {
            [row, ..] => only_keyed(row_of(&self.rows, row.1), kind, lease),
            [] => None,
        }
    }

    /// The first one, in the order of marks, that doesn't come before this mark.
    fn first_from(&self, mark: &Mark) -> Option<&Asked>
        ensures next { IsNextOf mark.now (option_copied result) self.now }
        ensures narrow { all_narrow self.now ≡ true }
    {
        match self.tables.waits.from(mark) {
            [row, ..] => Some(row_of(&self.rows, row.1)),
            [] => None,
        }
    }
}
