ghost use Rattle.std.specs.Prelude.{◌≡◌, ◌≢◌, ℕ, true, filter, Err, Some, IfSome, IfNone};
ghost use Rattle.core_model.specs.declared.event.StepFault.TheVariants.{NoMemory as Wanting};
ghost use Rattle.core_model.specs.Ends.{call_gone, lost_ask, lost_job, lost_call, on_lost, with_caller};
ghost use Rattle.core_model.specs.Lookups.{out_at, reads_of};
ghost use Rattle.core_model.specs.Sessions.{grant_failed, keep_failed};
ghost use Rattle.read_steps.specs.Steps.{FitTogether};
ghost use Rattle.core_machine.specs.Callers.{OneCaller};
ghost use Rattle.core_machine.specs.Does.{Does};
ghost use Rattle.core_machine.specs.Keeping.{on};

use crate::machine::Machine;
use call_kinds::is_read;
use core_model::{CallKind, OutCall, OutJob, Outcome, StepFault};
use core_parts::{free_seat, seat_calls};
use read_steps::Verdict;

impl Machine {
    /// A call was lost. It takes no memory.
    #[tactic(auto, unfolding(core_model::specs::Ends::on_lost))]
    #[inline(never)]
    pub fn on_lost(&mut self, call: u64, now: u64) -> Result<Outcome, StepFault>
        requires caller { OneCaller self.old.core.asks }
        requires fit { FitTogether (reads_of self.old.core) }
        ensures step { Does self.old.core (on_lost now call self.old.core) result self.new.core }
        ensures memory { result ≢ Err Wanting }
        ensures ranges { self.new.ranges ≡ self.old.ranges }
    {
        match self.end_call(call) {
            Some(out) => {
                self.lose(&out, now);
                self.go_on();
                Ok(Outcome::Noted)
            }
            None => Err(StepFault::NoSuchCall(call)),
        }
    }

    /// The call of this number, which is out no more; nothing where none is. It takes no memory.
    pub fn end_call(&mut self, call: u64) -> Option<OutCall>
        ensures found { result ≡ out_at call self.old.core.out }
        ensures some { IfSome result (λ o. self.new ≡ on self.old (call_gone call self.old.core)) }
        ensures none { IfNone result (self.new ≡ self.old) }
    {
        match self.out.find(call) {
            Some(_) => self.out.remove(call),
            None => None,
        }
    }

    /// This call, which is out no more, counts as lost: its member hands on to the next. It takes no memory.
    pub fn lose(&mut self, out: &OutCall, now: u64)
        requires caller { OneCaller self.old.core.asks }
        requires fit { FitTogether (reads_of self.old.core) }
        ensures { self.new ≡ on self.old (lost_call now out.now self.old.core) }
    {
        self.members.failed(out.member);
        self.lose_job(out, now);
    }

    fn lose_job(&mut self, out: &OutCall, now: u64)
        requires caller { OneCaller self.old.core.asks }
        requires fit { FitTogether (reads_of self.old.core) }
        ensures { self.new ≡ on self.old (lost_job now out.now out.now.job self.old.core) }
    {
        let moment = self.moment(now);
        match &out.job {
            OutJob::Grant { .. } => self.fail_grant(out),
            OutJob::Keep { .. } => self.fail_keep(out),
            OutJob::Acquire { key } => {
                self.reads.lose_acquire(&moment, key, self.members.count());
            }
            OutJob::Wait => self.reads.lose_write(&moment, out.call),
            OutJob::Ask { kind } => self.lose_ask(*kind, out),
            OutJob::Group { lease } => self.reads.lose_keepalives(out.call, *lease),
        }
    }

    /// A lost or refused grant leaves no session.
    pub fn fail_grant(&mut self, out: &OutCall)
        ensures { self.new ≡ on self.old (grant_failed out.now self.old.core) }
    {
        if seat_calls(out.call, &self.seat) {
            self.seat = None;
        }
    }

    /// A lost or refused keepalive changes nothing else.
    pub fn fail_keep(&mut self, out: &OutCall)
        ensures { self.new ≡ on self.old (keep_failed out.now self.old.core) }
    {
        if seat_calls(out.call, &self.seat) {
            free_seat(&mut self.seat);
        }
    }

    /// A client's call was lost: one that only reads is sent again, until one was lost for each member.
    fn lose_ask(&mut self, kind: CallKind, out: &OutCall)
        requires { OneCaller self.old.core.asks }
        ensures { self.new ≡ on self.old (with_caller out.now.call (lost_ask kind out.now self.old.core) self.old.core) }
    {
        if is_read(kind) {
            self.reads.lose_call(out.call, self.members.count());
        } else {
            self.reads.tell_caller(out.call, Verdict::Lost);
        }
    }
}
