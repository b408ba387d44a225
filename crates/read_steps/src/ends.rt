ghost use Rattle.std.specs.Prelude.{◌≡◌, map, filter, true, if◌then◌else◌, OnOk, OnErr};
ghost use Rattle.core_model.specs.Ends.{stale_once};
ghost use Rattle.core_model.specs.Fits.{at_most_one};
ghost use Rattle.core_model.specs.Groups.{groups_ended};
ghost use Rattle.core_model.specs.Lookups.{calls_as};
ghost use Rattle.read_model.specs.Acquires.{acquire_lost, lost_once};
ghost use Rattle.read_model.specs.PlainRead.{in_stage};
ghost use Rattle.read_model.specs.WriteAnswers.{wait_lost, settled_ask};
ghost use Rattle.read_model.specs.declared.asked.Stage.TheVariants as stage;
ghost use Rattle.read_model.specs.declared.asked.Verdict.TheVariants as verdict;
ghost use Rattle.read_steps.specs.Steps.{FitTogether};

use crate::moment::Moment;
use crate::reads::Reads;
use call_ends::{lose_caller, refuse_caller, tell_caller};
use etcd_types::{Answer, Bytes, NoMemory};
use keep_merge::{answer_group, lose_group};
use known_asks::{Asks, Stage, Verdict};
use read_core::{lose_reader, release, release_at};
use revoke_core::Settled;

impl Reads {
    /// The request whose own call this is, which is one at most, ends with this verdict. It takes no memory.
    pub fn tell_caller(&mut self, call: u64, verdict: Verdict)
        requires { at_most_one (filter (calls_as call) self.old.asks) ≡ true }
        ensures { self.new ≡ record self.old { asks = map (λ a. if calls_as call a then in_stage (stage.Replied verdict) a else a) self.old.asks } }
    {
        tell_caller(&mut self.asks, call, verdict);
    }

    /// The own call of a read was lost: it is due again, until one was lost for each member. It takes no memory.
    pub fn lose_call(&mut self, call: u64, members: u32)
        ensures { self.new ≡ record self.old { asks = map (λ a. if calls_as call a then lost_once members self.old.own.waits.step a else a) self.old.asks } }
    {
        lose_caller(&mut self.asks, call, members, self.waits.step());
    }

    /// The own call of a request was answered by a stale reply: it is due again, until there were five such for each member. It takes no
    /// memory.
    pub fn refuse_reply(&mut self, call: u64, members: u32)
        ensures { self.new ≡ record self.old { asks = map (λ a. if calls_as call a then stale_once members self.old.own.waits.step a else a) self.old.asks } }
    {
        refuse_caller(&mut self.asks, call, members, self.waits.step());
    }

    /// The keepalive of this number for clients of the lease was lost. It takes no memory.
    pub fn lose_keepalives(&mut self, call: u64, lease: u64)
        ensures { self.new ≡ record self.old { asks = groups_ended self.old.own.waits.step call lease verdict.Lost self.old.asks } }
    {
        lose_group(&mut self.asks, self.waits.step(), call, lease);
    }

    /// The keepalive of this number for clients of the lease was answered. Where memory was wanting all is as before.
    pub fn answer_keepalives(
        &mut self,
        call: u64,
        lease: u64,
        answer: &Answer,
    ) -> Result<(), NoMemory>
        ensures ok { OnOk result (self.new ≡ record self.old { asks = groups_ended self.old.own.waits.step call lease (verdict.Said answer.now) self.old.asks }) }
        ensures err { OnErr result (self.new ≡ self.old) }
    {
        answer_group(
            self.alloc,
            &mut self.asks,
            self.waits.step(),
            call,
            lease,
            answer,
        )?;
        Ok(())
    }

    /// The acquire of the key was lost: its reader's call is due, or ends, and each read that joined becomes a call. It looks at the
    /// reads of the key alone, and takes no memory.
    pub fn lose_acquire(&mut self, m: &Moment, key: &Bytes, members: u32)
        requires { FitTogether self.old }
        ensures { self.new ≡ acquire_lost members m.entry.now key.now self.old }
    {
        self.waits.end_acquire(key);
        self.acquires.remove(key);
        let step = self.waits.step();
        lose_reader(self.alloc, &mut self.asks, key, members, step);
        release_at(
            self.alloc,
            &mut self.asks,
            key,
            &self.table,
            &self.acquires,
            step,
        );
    }

    /// The call of this number, of a write or of an entry, was lost. It takes no memory.
    pub fn lose_write(&mut self, m: &Moment, call: u64)
        ensures { self.new ≡ wait_lost m.entry.now call self.old }
    {
        let settled = self.waits.lost(call, &mut self.table);
        settle(settled, &mut self.asks);
        release(
            self.alloc,
            &mut self.asks,
            &self.table,
            &self.acquires,
            self.waits.step(),
        );
    }
}

/// The request that is settled has its reply. It takes no memory.
pub(crate) fn settle(settled: Settled, asks: &mut Asks)
    ensures { asks.new ≡ map (settled_ask settled) asks.old }
{
    match settled {
        Settled::Reply(ticket, answer) => {
            asks.set_stage(ticket, Stage::Replied(Verdict::Said(answer)));
        }
        Settled::Failed(ticket) => asks.set_stage(ticket, Stage::Replied(Verdict::Lost)),
        Settled::Nothing => {}
    }
}
