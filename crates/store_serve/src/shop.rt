ghost use Rattle.std.specs.Prelude.{◌≡◌, ◌++◌, ◌∷◌, [], None, Some, true, IfOk, IfErr, Ok};
ghost use Rattle.etcd_types.specs.declared.watch.WatchItem.{WatchItem};
ghost use Rattle.turn_hub.specs.History.{Begins, entry_of};
ghost use Rattle.turn_hub.specs.Known.{made};
ghost use Rattle.turn_hub.specs.Steps.{IsAllowed};
ghost use Rattle.store_model.specs.Step.{IsExecuted};
ghost use Rattle.shop_model.specs.declared.event.StoreOutcome.TheVariants as outcome;
ghost use Rattle.store_machine.specs.Standing.{Steps};
ghost use Rattle.shop_dialog.specs.Steps.{has_opened};
ghost use Rattle.store_serve.specs.Missing.{IsAnswer, IsNumber, IsPushed, Misses, brought};

use etcd_types::{Answer, Request, WatchAsk, WatchItem};
use outside::Clock;
use shop_model::{StoreEvent, StoreOutcome, StoreStepFault};
use std::sync::Wait;
use store_machine::StoreMachine;
use turn_hub::{Hub, HubFault, Pass};

/// The answer that an outcome is.
fn answer_of(given: StoreOutcome) -> Answer
    requires { IsAnswer given }
    ensures { outcome.Answer result ≡ given }
{
    match given {
        StoreOutcome::Answer(answer) => answer,
        StoreOutcome::Opened(_) | StoreOutcome::Item(_) | StoreOutcome::Nothing => unreachable!(),
    }
}

/// The number that an outcome is.
fn number_of(given: StoreOutcome) -> u64
    requires { IsNumber given }
    ensures { outcome.Opened result ≡ given }
{
    match given {
        StoreOutcome::Opened(number) => number,
        StoreOutcome::Answer(_) | StoreOutcome::Item(_) | StoreOutcome::Nothing => unreachable!(),
    }
}

/// What a push brought.
fn item_of(given: StoreOutcome) -> Option<WatchItem>
    requires { IsPushed given }
    ensures { brought result ≡ given }
{
    match given {
        StoreOutcome::Item(item) => Some(item),
        StoreOutcome::Nothing => None,
        StoreOutcome::Answer(_) | StoreOutcome::Opened(_) => unreachable!(),
    }
}

/// Executes a request that opens no watch.
pub(crate) fn exec<R: Wait, C: Clock>(
    rt: &R,
    hub: &Hub<StoreMachine>,
    pass: &mut Pass<StoreMachine>,
    clock: &mut C,
    request: Request,
) -> Result<Answer, HubFault<StoreStepFault>>
    requires pass { pass.old.hub ≡ hub.now }
    requires executed { IsExecuted request }
    ensures home { pass.new.hub ≡ pass.old.hub }
    ensures seen { Begins pass.old.seen pass.new.seen }
    ensures allowed { IsAllowed Steps pass.new }
    ensures answer { IfOk result (λ answer. made pass.new ≡ made pass.old ++ entry_of (StoreEvent.Exec request) (C.last clock.new) (Ok (outcome.Answer answer)) ∷ []) }
    ensures fault { IfErr result (λ fault. Misses (StoreEvent.Exec request) (C.last clock.new) pass.old pass.new fault) }
{
    match hub.step(rt, pass, StoreEvent::Exec(request), clock) {
        Ok(given) => Ok(answer_of(given)),
        Err(fault) => Err(fault),
    }
}

/// Opens a watch.
pub(crate) fn open_watch<R: Wait, C: Clock>(
    rt: &R,
    hub: &Hub<StoreMachine>,
    pass: &mut Pass<StoreMachine>,
    clock: &mut C,
    ask: WatchAsk,
) -> Result<u64, HubFault<StoreStepFault>>
    requires pass { pass.old.hub ≡ hub.now }
    ensures home { pass.new.hub ≡ pass.old.hub }
    ensures seen { Begins pass.old.seen pass.new.seen }
    ensures allowed { IsAllowed Steps pass.new }
    ensures number { IfOk result (λ number. made pass.new ≡ made pass.old ++ entry_of (StoreEvent.Open ask) (C.last clock.new) (Ok (outcome.Opened number)) ∷ []) }
    ensures opened { IfOk result (λ number. has_opened number pass.new.seen ≡ true) }
    ensures fault { IfErr result (λ fault. Misses (StoreEvent.Open ask) (C.last clock.new) pass.old pass.new fault) }
{
    match hub.step(rt, pass, StoreEvent::Open(ask), clock) {
        Ok(given) => Ok(number_of(given)),
        Err(fault) => Err(fault),
    }
}

/// The next message of a watch that was opened, or none where there is nothing to tell yet.
pub(crate) fn push<R: Wait, C: Clock>(
    rt: &R,
    hub: &Hub<StoreMachine>,
    pass: &mut Pass<StoreMachine>,
    clock: &mut C,
    number: u64,
) -> Result<Option<WatchItem>, HubFault<StoreStepFault>>
    requires pass { pass.old.hub ≡ hub.now }
    requires opened { has_opened number pass.old.seen ≡ true }
    ensures home { pass.new.hub ≡ pass.old.hub }
    ensures seen { Begins pass.old.seen pass.new.seen }
    ensures allowed { IsAllowed Steps pass.new }
    ensures opened { has_opened number pass.new.seen ≡ true }
    ensures item { IfOk result (λ item. made pass.new ≡ made pass.old ++ entry_of (StoreEvent.Push number) (C.last clock.new) (Ok (brought item)) ∷ []) }
    ensures fault { IfErr result (λ fault. Misses (StoreEvent.Push number) (C.last clock.new) pass.old pass.new fault) }
{
    match hub.step(rt, pass, StoreEvent::Push(number), clock) {
        Ok(given) => Ok(item_of(given)),
        Err(fault) => Err(fault),
    }
}
