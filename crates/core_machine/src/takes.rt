ghost use Rattle.std.specs.Prelude.{◌≡◌, ◌<◌, ◌^◌, Some};
ghost use Rattle.watch_model.specs.Lookups.{watch_at};
ghost use Rattle.core_model.specs.Takes.{item_taken, on_take};
ghost use Rattle.core_machine.specs.Does.{Does};
ghost use Rattle.core_machine.specs.Replies.{HasText, StageHasText, Says, StageSays};

use crate::machine::Machine;
use call_kinds::{reply_of, text_of};
use core_model::{Outcome, StepFault};
use etcd_types::{Answer, Bytes};
use read_steps::{Asked, Stage};
use watch_merge::WatchFault;

impl Machine {
    /// A client takes its reply, where it stands, or the next message of its watch. Its ticket is unknown after a reply and
    /// after a cancellation.
    #[tactic(auto, unfolding(core_model::specs::Takes::on_take))]
    #[inline(never)]
    pub fn on_take(&mut self, ticket: u64) -> Result<Outcome, StepFault>
        requires { self.old.core.watches.given < 2 ^ 63 }
        ensures step { Does self.old.core (on_take ticket self.old.core) result self.new.core }
        ensures ranges { self.new.ranges ≡ self.old.ranges }
    {
        let Some(ask) = self.reads.find(ticket) else {
            return self.take_item(ticket);
        };
        let Stage::Replied(verdict) = &ask.stage else {
            return Ok(Outcome::Pending);
        };
        let Ok(text) = text_of(self.alloc, verdict) else {
            return Err(StepFault::NoMemory);
        };
        let reply = reply_in(self.reads.remove(ticket), text);
        Ok(Outcome::Replied(reply))
    }

    fn take_item(&mut self, ticket: u64) -> Result<Outcome, StepFault>
        requires { self.old.core.watches.given < 2 ^ 63 }
        ensures step { Does self.old.core (item_taken ticket (watch_at ticket self.old.core.watches.watches) self.old.core) result self.new.core }
        ensures ranges { self.new.ranges ≡ self.old.ranges }
    {
        match self.watches.take(ticket, self.header) {
            Ok(Some(told)) => Ok(Outcome::Item(told)),
            Ok(None) => Ok(Outcome::Pending),
            Err(WatchFault::NoSuchWatch(_)) => Err(StepFault::NoSuchTicket(ticket)),
            Err(WatchFault::NoSuchStream(_)) => unreachable!(),
            Err(WatchFault::NoMemory) => Err(StepFault::NoMemory),
        }
    }
}

/// The reply of a request that has one, with the text of its refusal.
fn reply_in(asked: Option<Asked>, text: Bytes) -> Answer
    requires { HasText asked text }
    ensures { Says asked result }
{
    match asked {
        Some(asked) => reply_at(asked.stage, text),
        None => unreachable!(),
    }
}

fn reply_at(stage: Stage, text: Bytes) -> Answer
    requires { StageHasText stage text }
    ensures { StageSays stage result }
{
    match stage {
        Stage::Replied(verdict) => reply_of(verdict, text),
        _ => unreachable!(),
    }
}
