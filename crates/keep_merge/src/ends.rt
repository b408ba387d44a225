ghost use Rattle.std.specs.Prelude.{◌≡◌, OnOk, OnErr};
ghost use Rattle.core_model.specs.Groups.{groups_ended, is_out_stage, waits_next};
ghost use Rattle.read_model.specs.declared.asked.Verdict.TheVariants as verdict;
ghost use Rattle.keep_merge.specs.Ends.{group_over, group_over-ticket, over_stage, group_next, group_next-ticket};

use crate::joins::keeps;
use etcd_types::{Answer, NoMemory};
use known_asks::{
    Asked, Asks, Restage, Rule, Stage, Verdict, change_group, change_next_group, group_changes,
    set_stages,
};
use std::alloc::Global;
use wait_model::Sending;

/// A keepalive for clients was lost: those that are in its group have that reply.
#[derive(Drop)]
struct Lost {
    call: u64,
}

impl Rule for Lost {
    ghost changed = { λ s. group_over s.call verdict.Lost };

    fn change(&self, ask: &mut Asked) {
        if is_out(self.call, &ask.stage) {
            ask.stage = Stage::Replied(Verdict::Lost);
        }
    }

    ghost keeps = { λ s a. group_over-ticket s.call verdict.Lost a };
}

/// A keepalive for clients was answered: those that are in its group have that reply.
#[derive(Drop)]
struct Answered<'a> {
    call: u64,
    answer: &'a Answer,
}

impl<'a> Restage for Answered<'a> {
    ghost stage_of = { λ s. over_stage s.call (verdict.Said s.answer.now) };

    fn stage(&self, alloc: Global, ask: &Asked) -> Result<Option<Stage>, NoMemory> {
        if is_out(self.call, &ask.stage) {
            let answer = self.answer.copy(alloc)?;
            return Ok(Some(Stage::Replied(Verdict::Said(answer))));
        }
        Ok(None)
    }
}

fn is_out(call: u64, stage: &Stage) -> bool
    ensures { result ≡ is_out_stage call stage.now }
{
    match stage {
        Stage::Grouped(Some(Sending::Out { call: number })) => *number == call,
        _ => false,
    }
}

/// A keepalive of the lease ended: the group that waits for that is due.
#[derive(Drop)]
struct Next {
    step: u64,
    lease: u64,
}

impl Rule for Next {
    ghost changed = { λ s. group_next s.step s.lease };

    fn change(&self, ask: &mut Asked) {
        if keeps(self.lease, &ask.request) && waits_next(&ask.stage) {
            ask.stage = Stage::Grouped(Some(Sending::Due { since: self.step }));
        }
    }

    ghost keeps = { λ s a. group_next-ticket s.step s.lease a };
}

fn waits_next(stage: &Stage) -> bool
    ensures { result ≡ waits_next stage.now }
{
    matches!(stage, Stage::Grouped(None))
}

/// The keepalive of this number was lost. It looks at those that share it and those that wait for the next one of the lease alone, and
/// takes no memory.
pub fn lose_group(asks: &mut Asks, step: u64, call: u64, lease: u64)
    ensures { asks.new ≡ groups_ended step call lease verdict.Lost asks.old }
{
    change_group(asks, call, &Lost { call });
    change_next_group(asks, lease, &Next { step, lease });
}

/// The keepalive of this number was answered. It looks at the same alone. Where memory is wanting all is as before.
pub fn answer_group(
    alloc: Global,
    asks: &mut Asks,
    step: u64,
    call: u64,
    lease: u64,
    answer: &Answer,
) -> Result<(), NoMemory>
    ensures ok { OnOk result (asks.new ≡ groups_ended step call lease (verdict.Said answer.now) asks.old) }
    ensures err { OnErr result (asks.new ≡ asks.old) }
{
    let changes = group_changes(alloc, asks, call, &Answered { call, answer })?;
    set_stages(asks, changes);
    change_next_group(asks, lease, &Next { step, lease });
    Ok(())
}
