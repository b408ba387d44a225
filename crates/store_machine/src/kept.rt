ghost use Rattle.std.specs.Prelude.{◌≡◌, ◌⊎◌, ◌+◌, ◌^◌, nat_le, false, IfOk, OnOk, OnErr};
ghost use Rattle.store_model.specs.Step.{exec, IsExecuted};
ghost use Rattle.store_model.specs.Watches.{opened, pushed};
ghost use Rattle.shop_model.specs.Deadlines.{due};
ghost use Rattle.shop_model.specs.Shop.{Shop, first_shop, lease_ended, all_ended, settled};
ghost use Rattle.shop_model.specs.Steps.{May, is_worn, does, with_answer, with_opened, with_pushed};
ghost use Rattle.shop_model.specs.Timed.{IsTimed};
ghost use Rattle.store_machine.specs.Holding.{Holds, Timed, HasRoom, EndedSome, Acts, Steps, is_wanting, answer_to};

use crate::deadlines::Deadlines;
use crate::ending::{catch_up, expire};
use etcd_types::{NoMemory, Request, WatchAsk};
use shop_model::{StoreEvent, StoreOutcome, StoreStepFault};
use std::alloc::Global;
use store_model::StoreFault;
use store_world::Store;

/// How many revisions and leases there may be together.
const MOST: u64 = 1 << 62;

/// The parts of the machine.
#[derive(Drop)]
pub(crate) struct Kept {
    pub(crate) alloc: Global,
    pub(crate) store: Store,
    pub(crate) deadlines: Deadlines,
}

impl Kept {
    pub(crate) fn new(alloc: Global) -> Result<Kept, NoMemory>
        ensures { IfOk result (λ kept. Holds kept first_shop) }
    {
        let store = Store::new(alloc, 1)?;
        Ok(Kept {
            alloc,
            store,
            deadlines: Deadlines::new(alloc),
        })
    }

    /// One step.
    pub(crate) fn step(
        &mut self,
        event: &StoreEvent,
        now: u64,
    ) -> Result<StoreOutcome, StoreStepFault>
        requires may { May event.now }
        requires timed { ∥ Timed self.old ∥₁ }
        ensures { (s : Shop) → Holds self.old s → IsTimed s → Steps s event.now now result self.new }
    {
        if self.is_worn() {
            return Err(StoreStepFault::Worn);
        }
        match self.go_on(event, now) {
            Ok(answer) => answer,
            Err(NoMemory) => Err(StoreStepFault::NoMemory),
        }
    }

    /// Whether a lease is due.
    pub(crate) fn has_due(&self, now: u64) -> bool {
        self.deadlines.has_due(now)
    }

    /// Whether revisions and leases are used up.
    fn is_worn(&self) -> bool
        ensures worn { (s : Shop) → Holds self.now s → IsTimed s → result ≡ is_worn s }
        ensures room { result ≡ false → ∥ Timed self.now ∥₁ → HasRoom self.now.store }
    {
        are_most(self.store.newest(), self.deadlines.len())
    }

    /// What comes before the event, and then the event.
    fn go_on(
        &mut self,
        event: &StoreEvent,
        now: u64,
    ) -> Result<Result<StoreOutcome, StoreStepFault>, NoMemory>
        requires may { May event.now }
        requires room { HasRoom self.old.store }
        ensures ok { IfOk result (λ answer. (s : Shop) → Holds self.old s → Acts self.new answer (does now event.now (settled now s))) }
        ensures err { OnErr result ((s : Shop) → Holds self.old s → EndedSome now s self.new ⊎ Holds self.new (settled now s)) }
    {
        self.settle(now)?;
        Ok(self.act(event, now)?)
    }

    /// Lets the leases expire that are due, and then the member apply the newest revision.
    fn settle(&mut self, now: u64) -> Result<(), NoMemory>
        requires room { HasRoom self.old.store }
        ensures room { OnOk result (HasRoom self.new.store) }
        ensures ok { OnOk result ((s : Shop) → Holds self.old s → Holds self.new (settled now s)) }
        ensures err { OnErr result ((s : Shop) → Holds self.old s → EndedSome now s self.new) }
    {
        self.end_due(now)?;
        self.deadlines.look(now);
        catch_up(&mut self.store)?;
        Ok(())
    }

    fn end_due(&mut self, now: u64) -> Result<(), NoMemory>
        requires room { HasRoom self.old.store }
        ensures room { OnOk result (HasRoom self.new.store) }
        ensures ok { OnOk result ((s : Shop) → Holds self.old s → Holds self.new (all_ended (due now s.deadlines) s)) }
        ensures err { OnErr result ((s : Shop) → Holds self.old s → EndedSome now s self.new) }
    {
        let due = self.deadlines.due(self.alloc, now)?;
        for number in due.as_slice() {
            self.end(*number)?;
        }
        Ok(())
    }

    fn end(&mut self, number: u64) -> Result<(), NoMemory>
        requires room { HasRoom self.old.store }
        ensures room { OnOk result (HasRoom self.new.store) }
        ensures ok { OnOk result ((s : Shop) → Holds self.old s → Holds self.new (lease_ended number s)) }
        ensures err { OnErr result (self.new ≡ self.old) }
    {
        expire(&mut self.store, number)?;
        self.deadlines.remove(number);
        Ok(())
    }

    /// Does what the event says.
    fn act(
        &mut self,
        event: &StoreEvent,
        now: u64,
    ) -> Result<Result<StoreOutcome, StoreStepFault>, NoMemory>
        requires may { May event.now }
        requires room { HasRoom self.old.store }
        ensures ok { IfOk result (λ answer. (s : Shop) → Holds self.old s → Acts self.new answer (does now event.now s)) }
        ensures err { OnErr result ((s : Shop) → Holds self.old s → Holds self.new s) }
    {
        match event {
            StoreEvent::Exec(request) => Ok(self.exec(request, now)?),
            StoreEvent::Open(ask) => Ok(self.open_watch(ask)?),
            StoreEvent::Push(number) => Ok(self.push(*number)?),
        }
    }

    /// Room for one more deadline is made first, so that a lease that was granted has one.
    fn exec(
        &mut self,
        request: &Request,
        now: u64,
    ) -> Result<Result<StoreOutcome, StoreStepFault>, NoMemory>
        requires executed { IsExecuted request.now }
        requires room { HasRoom self.old.store }
        ensures ok { IfOk result (λ answer. (s : Shop) → Holds self.old s → Acts self.new answer (with_answer now request.now s (exec s.store 1 request.now))) }
        ensures err { OnErr result ((s : Shop) → Holds self.old s → Holds self.new s) }
    {
        self.deadlines.reserve()?;
        let answer = self.store.execute(request)?;
        self.deadlines.note(request, &answer, now);
        Ok(Ok(StoreOutcome::Answer(answer)))
    }

    fn open_watch(
        &mut self,
        ask: &WatchAsk,
    ) -> Result<Result<StoreOutcome, StoreStepFault>, NoMemory>
        ensures ok { IfOk result (λ answer. (s : Shop) → Holds self.old s → Acts self.new answer (with_opened s (opened s.store 1 ask.now))) }
        ensures err { OnErr result (self.new ≡ self.old) }
    {
        let number = self.store.open_watch(1, ask)?;
        Ok(Ok(StoreOutcome::Opened(number)))
    }

    fn push(&mut self, number: u64) -> Result<Result<StoreOutcome, StoreStepFault>, NoMemory>
        ensures ok { IfOk result (λ answer. (s : Shop) → Holds self.old s → Acts self.new answer (with_pushed number s (pushed s.store number))) }
        ensures err { OnErr result (self.new ≡ self.old) }
    {
        match self.store.push(number) {
            Ok(item) => Ok(Ok(StoreOutcome::Item(item))),
            Err(fault) => Ok(unpushed(fault, number)?),
        }
    }
}

/// What is answered where the store pushes nothing.
fn unpushed(
    fault: StoreFault,
    number: u64,
) -> Result<Result<StoreOutcome, StoreStepFault>, NoMemory>
    ensures answer { IfOk result (λ answer. answer ≡ answer_to number fault) }
    ensures known { OnOk result (is_wanting fault ≡ false) }
{
    match fault {
        StoreFault::NoMemory => Err(NoMemory),
        StoreFault::NothingToPush(_) => Ok(Ok(StoreOutcome::Nothing)),
        _ => Ok(Err(StoreStepFault::NoSuchWatch(number))),
    }
}

/// Whether so many revisions and leases use up what there may be.
fn are_most(revisions: u64, leases: u64) -> bool
    ensures { result ≡ nat_le (2 ^ 62) (revisions + leases) }
{
    revisions.saturating_add(leases) >= MOST
}
