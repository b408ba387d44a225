ghost use Rattle.std.specs.Prelude.{◌≡◌, ◌&&◌, if◌then◌else◌, true};
ghost use Rattle.proxy_model.specs.Members.{is_stale};
ghost use Rattle.core_model.specs.Kinds.{is_ordered};
ghost use Rattle.core_model.specs.Ends.{answered_job, ask_answered, ask_done, member_failed, said, stale_once, with_caller};
ghost use Rattle.core_model.specs.Sessions.{grant_answered, granted_by, keep_answered, kept, kept_by, seat_calls, seat_granted};
ghost use Rattle.core_machine.specs.Answers.{Answers, is_other};
ghost use Rattle.core_machine.specs.Callers.{OneCaller};
ghost use Rattle.core_machine.specs.Keeping.{on};

use crate::machine::Machine;
use call_kinds::{is_body_of, is_ordered};
use core_model::{CallKind, OutCall, OutJob};
use core_parts::{grant_seat, renew_seat, seat_calls};
use etcd_types::{Answer, Body, Header, Reply};
use read_steps::Verdict;

impl Machine {
    /// The call of the session or a client's own, which is out no more, was answered. Whether the answer can be one to it; else
    /// all is as before. It takes no memory.
    pub(crate) fn take_answer(&mut self, out: &OutCall, answer: Answer, now: u64) -> bool
        requires caller { OneCaller self.old.core.asks }
        requires job { is_other out.now.job ≡ true }
        ensures { Answers self.old (answered_job now out.now out.now.job answer self.old.core) result self.new }
    {
        match &out.job {
            OutJob::Grant { .. } => self.take_grant(out, &answer),
            OutJob::Keep { .. } => self.take_keep(out, &answer, now),
            OutJob::Ask { kind } => self.take_own(*kind, out, answer),
            OutJob::Acquire { .. } | OutJob::Wait | OutJob::Group { .. } => unreachable!(),
        }
    }

    fn take_grant(&mut self, out: &OutCall, answer: &Answer) -> bool
        ensures { Answers self.old (grant_answered out.now answer.now self.old.core) result self.new }
    {
        match answer {
            Answer::Done(reply) => self.take_granted(out, &reply.body),
            Answer::Refused(_) => {
                self.fail_grant(out);
                true
            }
        }
    }

    fn take_granted(&mut self, out: &OutCall, body: &Body) -> bool
        ensures { Answers self.old (granted_by out.now body.now self.old.core) result self.new }
    {
        match body {
            Body::Grant { ttl, .. } => {
                self.grant(out, *ttl);
                true
            }
            _ => false,
        }
    }

    /// The session's grant was answered with this time to live, where it still is the session's.
    fn grant(&mut self, out: &OutCall, ttl: u64)
        ensures { self.new
            ≡ on self.old (if seat_calls out.now.call self.old.core.seat
            then record self.old.core { seat = seat_granted out.now.sent_at ttl self.old.core.seat }
            else self.old.core) }
    {
        if seat_calls(out.call, &self.seat) {
            grant_seat(&mut self.seat, out.sent_at, ttl);
        }
    }

    fn take_keep(&mut self, out: &OutCall, answer: &Answer, now: u64) -> bool
        ensures { Answers self.old (keep_answered now out.now answer.now self.old.core) result self.new }
    {
        match answer {
            Answer::Done(reply) => self.take_kept(out, &reply.body, now),
            Answer::Refused(_) => {
                self.fail_keep(out);
                true
            }
        }
    }

    fn take_kept(&mut self, out: &OutCall, body: &Body, now: u64) -> bool
        ensures { Answers self.old (kept_by now out.now body.now self.old.core) result self.new }
    {
        match body {
            Body::KeepAlive { ttl, .. } => {
                self.keep(out, *ttl, now);
                true
            }
            _ => false,
        }
    }

    /// The session's keepalive was answered with this time to live, where it still is the session's.
    fn keep(&mut self, out: &OutCall, ttl: u64, now: u64)
        ensures { self.new ≡ on self.old (if seat_calls out.now.call self.old.core.seat then kept now out.now ttl self.old.core else self.old.core) }
    {
        if seat_calls(out.call, &self.seat) {
            self.renew(out, ttl, now);
        }
    }

    /// A time to live of 0 says that the session's lease is gone.
    fn renew(&mut self, out: &OutCall, ttl: u64, now: u64)
        ensures { self.new ≡ on self.old (kept now out.now ttl self.old.core) }
    {
        if ttl == 0 {
            self.end_session(now);
        } else {
            renew_seat(&mut self.seat, out.sent_at, ttl);
        }
    }

    /// A client's own call was answered.
    fn take_own(&mut self, kind: CallKind, out: &OutCall, answer: Answer) -> bool
        requires { OneCaller self.old.core.asks }
        ensures { Answers self.old (ask_answered kind out.now answer self.old.core) result self.new }
    {
        match answer {
            Answer::Done(reply) => {
                if !is_body_of(kind, &reply.body) {
                    return false;
                }
                self.take_reply(kind, out, reply);
                true
            }
            Answer::Refused(refusal) => {
                self.say(out, Answer::Refused(refusal));
                true
            }
        }
    }

    /// One that is older than what was seen before the call was sent is stale.
    fn take_reply(&mut self, kind: CallKind, out: &OutCall, reply: Reply)
        requires { OneCaller self.old.core.asks }
        ensures { self.new ≡ on self.old (ask_done kind out.now reply self.old.core) }
    {
        if is_stale(kind, out, reply.header) {
            self.refuse_stale(out);
        } else {
            self.say(out, Answer::Done(reply));
        }
    }

    /// A client's own call had a stale reply: it is sent again, to the next member.
    fn refuse_stale(&mut self, out: &OutCall)
        ensures { self.new ≡ on self.old (with_caller out.now.call (stale_once self.old.core.members.count self.old.core.own.waits.step) (member_failed out.now self.old.core)) }
    {
        let members = self.members.count();
        self.members.failed(out.member);
        self.reads.refuse_reply(out.call, members);
    }

    /// A client's own call is over with this answer.
    fn say(&mut self, out: &OutCall, answer: Answer)
        requires { OneCaller self.old.core.asks }
        ensures { self.new ≡ on self.old (with_caller out.now.call (said answer) self.old.core) }
    {
        self.reads.tell_caller(out.call, Verdict::Said(answer));
    }
}

/// Whether the reply is older than what was seen before its call was sent, where that matters.
fn is_stale(kind: CallKind, out: &OutCall, header: Header) -> bool
    ensures { result ≡ (is_ordered kind && is_stale out.now.seen header.revision) }
{
    is_ordered(kind) && header.revision < out.seen
}
