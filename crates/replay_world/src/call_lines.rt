ghost use Rattle.std.specs.Prelude.{◌≡◌, ◌∷◌, [], IfOk, IsSome, Some, true};
ghost use Rattle.replay_world.specs.Calls.{is_out};
ghost use Rattle.replay_places.specs.Turns.{turned};
ghost use Rattle.replay_world.specs.World.{Gives, Stands};
ghost use Rattle.world_model.specs.Calls.{executed, answered, lost};
ghost use Rattle.world_model.specs.declared.sent_call.SentCall.{SentCall as Sent};
ghost use Rattle.script_text.specs.declared.item.Item.TheVariants as item;
ghost use Rattle.world_model.specs.Floors.{floors_after};
ghost use Rattle.world_model.specs.Places.{nth, with_call, with_nth};
ghost use Rattle.world_model.specs.State.{World as Model};
ghost use Rattle.world_model.specs.Steps.{at_place};

use crate::world::World;
use core_face::{CoreEvent, ProxyCore};
use etcd_types::{Answer, List, NoMemory};
use replay_parts::{execute_at, mark_executed, mark_settled, nth, one, raise_floors};
use replay_places::Turn;
use script_text::Item;
use std::alloc::Global;
use world_model::{SentCall, WorldFault};

impl<C: ProxyCore> World<C> {
    /// The store executes a call, once at the most.
    pub(crate) fn execute(&mut self, number: u64) -> Result<List<Item>, WorldFault>
        ensures step { (w : Model) → Stands self.old w → Gives self.new result (executed w number) }
        ensures lines { self.new.lines ≡ self.old.lines }
    {
        let Some(call) = nth(&self.calls, number) else {
            return Err(WorldFault::NoSuchCall(number));
        };
        if call.executed.is_some() {
            return Err(WorldFault::NoSuchCall(number));
        }
        let answer = execute_at(self.alloc, &mut self.store, call.member, &call.request)?;
        match told_executed(self.alloc, number, &answer) {
            Ok(items) => Ok(self.note_executed(number, answer, items)?),
            Err(NoMemory) => {
                drop(answer);
                Err(WorldFault::NoMemory)
            }
        }
    }

    /// The call has this answer of the store.
    fn note_executed(
        &mut self,
        number: u64,
        answer: Answer,
        items: List<Item>,
    ) -> Result<List<Item>, NoMemory>
        requires { IsSome (nth self.old.calls number) }
        ensures items { IfOk result (λ told. told ≡ items) }
        ensures parts { IfOk result (λ told. (call : Sent) → nth self.old.calls number ≡ Some call
            → self.new ≡ record self.old {
              calls = with_nth self.old.calls number (record call { executed = Some answer });
              floors = floors_after call answer self.old.floors;
            }) }
        ensures lines { self.new.lines ≡ self.old.lines }
    {
        let Some(call) = nth(&self.calls, number) else {
            unreachable!()
        };
        match raise_floors(&mut self.floors, call, &answer) {
            Ok(()) => {
                mark_executed(&mut self.calls, number, answer);
                Ok(items)
            }
            Err(NoMemory) => {
                drop(answer);
                Err(NoMemory)
            }
        }
    }

    /// The proxy that waits for the call is in the life in which it sent it, and the call was neither answered nor lost.
    fn is_out(&self, call: &SentCall) -> bool
        ensures { result ≡ is_out self.now.places call.now }
    {
        !call.settled && self.places.is_alive(call.proxy, call.life)
    }

    /// A call's answer arrives at its proxy.
    pub(crate) fn answer(&mut self, number: u64) -> Result<List<Item>, WorldFault>
        ensures step { (w : Model) → Stands self.old w → Gives self.new result (answered w number) }
        ensures lines { self.new.lines ≡ self.old.lines }
    {
        let Some(call) = nth(&self.calls, number) else {
            return Err(WorldFault::NoSuchCall(number));
        };
        if !self.is_out(call) {
            return Err(WorldFault::NoSuchCall(number));
        }
        let Some(answer) = &call.executed else {
            return Err(WorldFault::NotExecuted(number));
        };
        let proxy = call.proxy;
        let answer = answer.copy(self.alloc)?;
        let turn = Turn::Step {
            event: CoreEvent::Answer {
                call: call.own,
                answer,
            },
            otherwise: WorldFault::NoSuchCall(number),
            own: Item::Answered { call: number },
        };
        self.settle(number, proxy, turn)
    }

    /// A call is lost. It can still be executed.
    pub(crate) fn lose(&mut self, number: u64) -> Result<List<Item>, WorldFault>
        ensures step { (w : Model) → Stands self.old w → Gives self.new result (lost w number) }
        ensures lines { self.new.lines ≡ self.old.lines }
    {
        let Some(call) = nth(&self.calls, number) else {
            return Err(WorldFault::NoSuchCall(number));
        };
        if !self.is_out(call) {
            return Err(WorldFault::NoSuchCall(number));
        }
        let proxy = call.proxy;
        let turn = Turn::Step {
            event: CoreEvent::Lost { call: call.own },
            otherwise: WorldFault::NoSuchCall(number),
            own: Item::Lost { call: number },
        };
        self.settle(number, proxy, turn)
    }

    /// A call ends at its proxy by this turn.
    fn settle(&mut self, number: u64, proxy: u64, turn: Turn) -> Result<List<Item>, WorldFault>
        requires { IsSome (nth self.old.calls number) }
        ensures step { (w : Model) (call : Sent) → Stands self.old w → nth self.old.calls number ≡ Some call
            → Gives self.new result (at_place w proxy (turned w (with_call w number (record call { settled = true })) proxy turn)) }
        ensures lines { self.new.lines ≡ self.old.lines }
    {
        let items = self.places.turn(self.alloc, proxy, turn)?;
        mark_settled(&mut self.calls, number);
        Ok(items)
    }
}

fn told_executed(alloc: Global, number: u64, answer: &Answer) -> Result<List<Item>, NoMemory>
    ensures { IfOk result (λ items. items ≡ item.Executed number answer.now ∷ []) }
{
    let answer = answer.copy(alloc)?;
    Ok(one(
        alloc,
        Item::Executed {
            call: number,
            answer,
        },
    )?)
}
