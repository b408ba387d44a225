ghost use Rattle.std.specs.Prelude.{◌≡◌, ℕ, Some, true, is_some, IsOk, OnOk, OnErr};
ghost use Rattle.core_laws.specs.Steps.Kept.{HeardBytes};
ghost use Rattle.core_model.specs.Ends.{on_answer, answer_of, is_keepalive};
ghost use Rattle.core_model.specs.Fits.{CoreOk};
ghost use Rattle.core_model.specs.Heard.{heard};
ghost use Rattle.core_model.specs.Lookups.{out_at, moment, reads_of};
ghost use Rattle.read_steps.specs.Steps.{FitTogether};
ghost use Rattle.core_machine.specs.Answers.{delivered, heard_in, ended_in, is_acquire, is_wait, is_other, CallIs, GroupIs, Hears, Loses, without_seat_if};
ghost use Rattle.core_machine.specs.Callers.{OneCaller};
ghost use Rattle.core_machine.specs.Does.{Does};
ghost use Rattle.core_machine.specs.Keeping.{on};

use crate::bytes::show_bytes;
use crate::machine::Machine;
use call_kinds::{heard, is_body_of};
use core_model::{CallKind, OutJob, Outcome, StepFault};
use core_parts::raise_header;
use etcd_types::{Answer, Header, NoMemory};
use read_steps::{Moment, NotShape};

impl Machine {
    /// A member answered a call. What can't be an answer to it counts as a loss.
    #[tactic(auto, unfolding(core_model::specs::Ends::on_answer))]
    #[inline(never)]
    pub fn on_answer(&mut self, call: u64, answer: Answer, now: u64) -> Result<Outcome, StepFault>
        requires { CoreOk self.old.core }
        ensures step { Does self.old.core (on_answer now call answer self.old.core) result self.new.core }
        ensures bytes { IsOk result → HeardBytes (heard self.old.core.settings.namespace answer) }
        ensures ranges { self.new.ranges ≡ self.old.ranges }
    {
        match self.out.find(call) {
            Some(_) => self.answer_out(call, answer, now),
            None => Err(StepFault::NoSuchCall(call)),
        }
    }

    /// A call that is out was answered.
    fn answer_out(&mut self, call: u64, answer: Answer, now: u64) -> Result<Outcome, StepFault>
        requires ok { CoreOk self.old.core }
        requires out { is_some (out_at call self.old.core.out) ≡ true }
        ensures step { Does self.old.core (answer_of now call answer (out_at call self.old.core.out) self.old.core) result self.new.core }
        ensures bytes { IsOk result → HeardBytes (heard self.old.core.settings.namespace answer) }
        ensures ranges { self.new.ranges ≡ self.old.ranges }
    {
        let delivered = delivered(&answer);
        let Ok(heard) = heard(self.alloc, &self.namespace, answer) else {
            return Err(StepFault::NoMemory);
        };
        show_bytes(&heard);
        let Ok(()) = self.hear(call, heard, delivered, now) else {
            return Err(StepFault::NoMemory);
        };
        self.go_on();
        Ok(Outcome::Noted)
    }

    /// This was heard of a call that is out. Where memory was wanting all is as before.
    fn hear(
        &mut self,
        call: u64,
        heard: Option<Answer>,
        delivered: Option<Header>,
        now: u64,
    ) -> Result<(), NoMemory>
        requires ok { CoreOk self.old.core }
        requires out { is_some (out_at call self.old.core.out) ≡ true }
        ensures ok { OnOk result (Hears self.old now call heard delivered self.new) }
        ensures err { OnErr result (self.new ≡ self.old) }
    {
        match heard {
            Some(answer) => self.hear_answer(call, answer, delivered, now),
            None => {
                self.lose_answered(call, delivered, now);
                Ok(())
            }
        }
    }

    fn hear_answer(
        &mut self,
        call: u64,
        answer: Answer,
        delivered: Option<Header>,
        now: u64,
    ) -> Result<(), NoMemory>
        requires ok { CoreOk self.old.core }
        requires out { is_some (out_at call self.old.core.out) ≡ true }
        ensures ok { OnOk result (Hears self.old now call (Some answer) delivered self.new) }
        ensures err { OnErr result (self.new ≡ self.old) }
    {
        match self.out.find(call) {
            Some(out) => match out.job {
                OutJob::Acquire { .. } => self.hear_acquire(call, answer, delivered, now),
                OutJob::Wait => self.hear_wait(call, answer, delivered, now),
                OutJob::Group { lease } => self.hear_group(call, lease, &answer, delivered, now),
                OutJob::Grant { .. } | OutJob::Keep { .. } | OutJob::Ask { .. } => {
                    self.hear_other(call, answer, delivered, now);
                    Ok(())
                }
            },
            None => unreachable!(),
        }
    }

    /// An acquire was answered.
    fn hear_acquire(
        &mut self,
        call: u64,
        answer: Answer,
        delivered: Option<Header>,
        now: u64,
    ) -> Result<(), NoMemory>
        requires ok { CoreOk self.old.core }
        requires job { CallIs is_acquire call self.old.core.out }
        ensures ok { OnOk result (Hears self.old now call (Some answer) delivered self.new) }
        ensures err { OnErr result (self.new ≡ self.old) }
    {
        let moment = self.moment_after(delivered, now);
        let Some(out) = self.out.find(call) else {
            unreachable!();
        };
        let OutJob::Acquire { key } = &out.job else {
            unreachable!();
        };
        match self.reads.answer_acquire(&moment, key, answer) {
            Ok(ends) => {
                self.end_acquire(call, delivered, ends);
                Ok(())
            }
            Err(NotShape::Shape) => {
                self.lose_answered(call, delivered, now);
                Ok(())
            }
            Err(NotShape::NoMemory) => Err(NoMemory),
        }
    }

    /// A write's call, a revoke call or a rescind was answered.
    fn hear_wait(
        &mut self,
        call: u64,
        answer: Answer,
        delivered: Option<Header>,
        now: u64,
    ) -> Result<(), NoMemory>
        requires ok { CoreOk self.old.core }
        requires job { CallIs is_wait call self.old.core.out }
        ensures ok { OnOk result (Hears self.old now call (Some answer) delivered self.new) }
        ensures err { OnErr result (self.new ≡ self.old) }
    {
        let moment = self.moment_after(delivered, now);
        match self.reads.answer_write(&moment, call, answer) {
            Ok(()) => {
                self.end_answered(call, delivered);
                Ok(())
            }
            Err(NotShape::Shape) => {
                self.lose_answered(call, delivered, now);
                Ok(())
            }
            Err(NotShape::NoMemory) => Err(NoMemory),
        }
    }

    /// A keepalive for clients was answered.
    fn hear_group(
        &mut self,
        call: u64,
        lease: u64,
        answer: &Answer,
        delivered: Option<Header>,
        now: u64,
    ) -> Result<(), NoMemory>
        requires ok { CoreOk self.old.core }
        requires job { GroupIs lease (out_at call self.old.core.out) }
        ensures ok { OnOk result (Hears self.old now call (Some answer.now) delivered self.new) }
        ensures err { OnErr result (self.new ≡ self.old) }
    {
        if !is_keepalive(answer) {
            self.lose_answered(call, delivered, now);
            return Ok(());
        }
        self.reads.answer_keepalives(call, lease, answer)?;
        self.end_answered(call, delivered);
        Ok(())
    }

    /// The session's call or a client's own was answered. It takes no memory.
    fn hear_other(&mut self, call: u64, answer: Answer, delivered: Option<Header>, now: u64)
        requires ok { CoreOk self.old.core }
        requires job { CallIs is_other call self.old.core.out }
        ensures { Hears self.old now call (Some answer) delivered self.new }
    {
        let Some(out) = self.end_call(call) else {
            unreachable!();
        };
        self.take_delivered(delivered);
        if !self.take_answer(&out, answer, now) {
            self.lose(&out, now);
        }
    }

    /// The call, which is out, counts as lost, though a header came with its answer. It takes no memory.
    fn lose_answered(&mut self, call: u64, delivered: Option<Header>, now: u64)
        requires caller { OneCaller self.old.core.asks }
        requires fit { FitTogether (reads_of self.old.core) }
        requires out { is_some (out_at call self.old.core.out) ≡ true }
        ensures { Loses self.old now call delivered self.new }
    {
        let Some(out) = self.end_call(call) else {
            unreachable!();
        };
        self.take_delivered(delivered);
        self.lose(&out, now);
    }

    /// The call is out no more, and its header was heard. It takes no memory.
    fn end_answered(&mut self, call: u64, delivered: Option<Header>)
        ensures { self.new ≡ on self.old (ended_in call delivered self.old.core) }
    {
        let _ended = self.out.remove(call);
        self.take_delivered(delivered);
    }

    /// The acquire's call is out no more, and the session may be over by its answer.
    fn end_acquire(&mut self, call: u64, delivered: Option<Header>, ends: bool)
        ensures { self.new ≡ on self.old (without_seat_if ends (ended_in call delivered self.old.core)) }
    {
        self.end_answered(call, delivered);
        if ends {
            self.seat = None;
        }
    }

    fn take_delivered(&mut self, delivered: Option<Header>)
        ensures { self.new ≡ on self.old (heard_in delivered self.old.core) }
    {
        if let Some(header) = delivered {
            self.take_header(header);
        }
    }

    /// What a step on reads is told beside them, once this header was heard.
    fn moment_after(&self, delivered: Option<Header>, now: u64) -> Moment
        ensures { result ≡ moment (heard_in delivered self.now.core) now }
    {
        let mut moment = self.moment(now);
        if let Some(header) = delivered {
            raise_header(&mut moment.header, header);
        }
        moment
    }
}

/// The header that came with the answer.
fn delivered(answer: &Answer) -> Option<Header>
    ensures { result ≡ delivered answer.now }
{
    match answer {
        Answer::Done(reply) => Some(reply.header),
        Answer::Refused(_) => None,
    }
}

/// Whether it can be an answer to a keepalive.
fn is_keepalive(answer: &Answer) -> bool
    ensures { result ≡ is_keepalive answer.now }
{
    match answer {
        Answer::Done(reply) => is_body_of(CallKind::KeepAlive, &reply.body),
        Answer::Refused(_) => true,
    }
}
