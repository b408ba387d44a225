ghost use Rattle.std.specs.Prelude.{◌≡◌, None, IfOk};
ghost use Rattle.std.specs.IoError.{error_kind};
ghost use Rattle.outside.specs.Calls.{HasLinkCause};
ghost use Rattle.member_links.specs.Answers.{faults_of};
ghost use Rattle.member_links.specs.Faults.{is_of_worker, link_fault, counted};

use crate::answer::SocketAnswer;
use crate::call_answer::CallAnswer;
use crate::member::Member;
use crate::members::Members;
use crate::stream_answer::StreamAnswer;
use crate::traffic::Traffic;
use crate::unread::range_of;
use crate::upstream::{Unsent, Upstream};
use outside::{AnswerEnd, CallKind, Link, LinkFault};
use socket_limits::{LinkLimits, TRIES, Until, time};
use std::alloc::Global;
use std::io::ErrorKind;
use std::marker::Model;
use std::net::{Net, TcpStream};
use std::rt::Clock as Times;
use std::sync::atomic::Ordering::SeqCst;
use std::sync::{Arc, Wait};
use std::time::Duration;
use std::{io, thread};

/// How long a call rests that found no member, where all are down, in milliseconds: who makes it may make it again at once, and would
/// turn for ever.
const REST_MS: u64 = 250;

/// The link to the members of a cluster over sockets. A call goes to the member that it names, or to the next one where that is down or
/// takes no byte of it. It uses a connection that an earlier call left, where one is there, and a stream has one of its own.
#[derive(Drop)]
pub struct SocketLink<R: Drop> {
    rt: R,
    members: Arc<Members, Global>,
    limits: LinkLimits,
    // whether it is inside a worker's call, and when the last one began and ended, by `micros`, or 0 where there was none
    inside: bool,
    began: u64,
    ended: u64,
    faults: u64,
}

impl<R: Drop> Model for SocketLink<R> {
    ghost use Rattle.outside.specs.Faults.{Counted};

    ghost Value = { Counted R };

    ghost view = { λ l. record { inner = l.rt; faults = l.faults } };
}

impl<R: Drop> SocketLink<R> {
    /// A link to these members, with no failure yet.
    pub fn new(rt: R, members: Arc<Members, Global>, limits: LinkLimits) -> SocketLink<R>
        ensures { result ≡ record { inner = rt; faults = 0 } }
    {
        SocketLink {
            rt,
            members,
            limits,
            inside: false,
            began: 0,
            ended: 0,
            faults: 0,
        }
    }
}

/// Whether a call of this kind is made by a worker.
fn is_of_worker(kind: CallKind) -> bool
    ensures { result ≡ is_of_worker kind }
{
    !matches!(kind, CallKind::Watches(_) | CallKind::Asks)
}

/// How a link reports an error.
fn link_fault(error: &io::Error) -> LinkFault
    ensures { result ≡ link_fault (error_kind error.now) }
{
    match error.kind() {
        ErrorKind::OutOfMemory => LinkFault::NoMemory,
        _ => LinkFault::Failed,
    }
}

impl<R: Net<Stream = TcpStream> + Times + Wait + Eprint + Drop + Clone> SocketLink<R> {
    // Sends a call to a member, which is to be done by that moment.
    fn send(
        &self,
        member: &Member,
        kind: CallKind,
        call: &[u8],
        until: Until,
    ) -> Result<Upstream, Unsent> {
        let connect = self.limits.connect;
        match kind {
            CallKind::Watches(_) => member.send_anew(&self.rt, call, connect, until),
            _ => member.send(&self.rt, call, connect, until),
        }
    }

    // Sends a call to one of these members, the first that takes a byte of it.
    fn sent_to(
        &self,
        order: &[&Member],
        kind: CallKind,
        call: &[u8],
        until: Until,
    ) -> io::Result<(u32, Upstream)> {
        let mut last = io::Error::from(ErrorKind::NotFound);
        for member in order {
            match self.send(member, kind, call, until) {
                Ok(upstream) => return Ok((member.number, upstream)),
                Err(Unsent::Prefix(error)) => {
                    self.members.doubt(&self.rt, member);
                    self.count(member, kind, true, 0);
                    return Err(error);
                }
                // where no time is left, it may be the others that took it
                Err(Unsent::Untouched(error)) if until.left(&self.rt).is_err() => {
                    self.members.doubt(&self.rt, member);
                    self.count_untaken(kind);
                    return Err(error);
                }
                Err(Unsent::Untouched(error)) => {
                    self.members.untouched(&self.rt, member, &error);
                    last = error;
                }
            }
        }
        self.count_untaken(kind);
        Err(last)
    }

    // Counts a worker's call to a member that took so many microseconds.
    fn count(&self, member: &Member, kind: CallKind, is_lost: bool, took: u64) {
        if is_of_worker(kind) {
            member.calls.ended(took, is_lost);
        }
    }

    // Counts a worker's call that no member took a byte of.
    fn count_untaken(&self, kind: CallKind) {
        if is_of_worker(kind) {
            self.members.untaken.fetch_add(1, SeqCst);
        }
    }

    // Sends a call to the member of this number, or to another one that stands in for it.
    fn sent(&self, number: u32, kind: CallKind, call: &[u8]) -> io::Result<(u32, Upstream, Until)> {
        let until = Until::after(&self.rt, self.limits.limit_for(kind))?;
        let (number, upstream) = match kind {
            CallKind::Asks => { self.sent_to(&[self.members.member(number)?], kind, call, until)? }
            _ => {
                let order = self.members.order(number)?;
                self.sent_to(order.as_slice(), kind, call, until)?
            }
        };
        Ok((number, upstream, until))
    }

    // Rests where streams of this range bring what is too long to be read, for as long as somebody wants the one of this number.
    fn rest_for(&self, stream: u64, range: &[u8]) {
        for _ in 0..TRIES {
            let left = self.members.unread.rest(&self.rt, range);
            if left == 0 || self.members.streams.is_forgotten(&self.rt, stream) {
                return;
            }
            thread::sleep(&self.rt, Duration::from_millis(left.min(REST_MS)));
        }
    }

    // The stream of this number that comes over this connection. It is `ConnectionAborted` where nobody wants it any more.
    fn stream(
        &self,
        number: u32,
        stream: u64,
        range: Vec<u8>,
        upstream: Upstream,
    ) -> io::Result<StreamAnswer<R>>
        ensures { IfOk result (λ answer. answer.faults ≡ 0) }
    {
        let socket = upstream.into_socket();
        let silence = Duration::from_millis(self.limits.silence.max(1));
        socket.set_read_timeout(Some(silence))?;
        let answer = StreamAnswer {
            rt: self.rt.clone()?,
            members: Arc::try_clone(&self.members)?,
            limits: self.limits,
            member: number,
            stream,
            traffic: Arc::new(self.members.alloc, Traffic::new(range))?,
            came: 0,
            holds: false,
            socket: Arc::new(self.members.alloc, socket)?,
            heard: time(&self.rt)?,
            faults: 0,
        };
        let streams = &self.members.streams;
        if streams.begin(&self.rt, stream, &answer.socket, &answer.traffic)? {
            Ok(answer)
        } else {
            Err(io::Error::from(ErrorKind::ConnectionAborted))
        }
    }

    // What the member of this number answers to a call over this connection.
    fn answer(
        &self,
        number: u32,
        kind: CallKind,
        upstream: Upstream,
        until: Until,
    ) -> io::Result<CallAnswer<R>>
        ensures { IfOk result (λ answer. answer.faults ≡ 0) }
    {
        let members = Arc::try_clone(&self.members)?;
        let rt = self.rt.clone()?;
        Ok(CallAnswer::new(rt, members, upstream, number, kind, until))
    }

    // The number of a session is kept before the session is begun. Where it can't be, the call rests: who makes it may make it again at once.
    fn note_session(&self, kind: CallKind) -> io::Result<()> {
        let CallKind::Session(number) = kind else {
            return Ok(());
        };
        let noted = self.members.begin_session(&self.rt, number);
        if noted.is_err() {
            thread::sleep(&self.rt, Duration::from_millis(REST_MS));
        }
        noted
    }

    // Sends a call to the member of this number, and gives its answer.
    fn begun(&self, number: u32, kind: CallKind, call: &[u8]) -> io::Result<SocketAnswer<R>>
        ensures { IfOk result (λ answer. faults_of answer ≡ 0) }
    {
        self.note_session(kind)?;
        if let CallKind::Watches(stream) = kind {
            let range = range_of(self.members.alloc, call)?;
            self.rest_for(stream, range.as_slice());
            let (number, upstream, _) = self.sent(number, kind, call)?;
            Ok(SocketAnswer::Stream(self.stream(number, stream, range, upstream)?))
        } else {
            let (number, upstream, until) = self.sent(number, kind, call)?;
            Ok(SocketAnswer::Call(self.answer(number, kind, upstream, until)?))
        }
    }

    // A call is begun.
    fn enter(&mut self, kind: CallKind)
        ensures { self.new.faults ≡ self.old.faults }
    {
        if is_of_worker(kind) {
            self.began = self.members.busy.begin(&self.rt, self.ended);
            self.inside = true;
        }
    }

    // A call ends.
    fn leave(&mut self)
        ensures { self.new.faults ≡ self.old.faults }
    {
        if self.inside {
            self.ended = self.members.busy.end(&self.rt);
            self.inside = false;
        }
    }

    // A stream ends. What is told of one whose message was too long to be read is its range.
    fn leave_stream(&self, answer: StreamAnswer<R>, how: AnswerEnd) {
        let mut answer = answer;
        if let (AnswerEnd::TooLong, Ok(member)) = (how, self.members.member(answer.member)) {
            let range = answer.traffic.range.as_slice();
            let alloc = self.members.alloc;
            self.members
                .unread
                .add(&self.rt, alloc, member, range, answer.came);
        }
        answer.release();
        self.members.streams.end(&self.rt, answer.stream);
    }

    // Doubts a member where the answer to a call failed, or refuses it for want of a user, and counts the call, which is over. Who asks it says
    // himself what came of that.
    fn judge(&self, call: &CallAnswer<R>) {
        let has_failed = call.faults > 0 && call.kind != CallKind::Asks;
        let Ok(member) = self.members.member(call.member) else {
            return;
        };
        if call.wants_user {
            self.members.refused(&self.rt, member);
        } else if has_failed {
            self.members.doubt(&self.rt, member);
        }
        let took = self.ended.saturating_sub(self.began);
        self.count(member, call.kind, has_failed, took);
    }
}

impl<R: Net<Stream = TcpStream> + Times + Wait + Eprint + Drop + Clone> Link for SocketLink<R> {
    type Answer = SocketAnswer<R>;

    ghost made = { λ l. None };

    ghost faults = { λ l. l.faults };

    fn begin(
        &mut self,
        member: u32,
        kind: CallKind,
        call: &[u8],
    ) -> Result<SocketAnswer<R>, LinkFault>
        ensures fresh { IfOk result (λ answer. faults_of answer ≡ 0) }
        ensures cause { HasLinkCause self.old.faults self.new.faults result }
        ensures counted { self.new.faults ≡ counted self.old.faults result }
    {
        self.enter(kind);
        match self.begun(member, kind, call) {
            Ok(answer) => Ok(answer),
            Err(error) => {
                if self.inside && self.members.none_answers() {
                    thread::sleep(&self.rt, Duration::from_millis(REST_MS));
                }
                self.leave();
                self.faults = self.faults.saturating_add(1);
                Err(link_fault(&error))
            }
        }
    }

    /// The connection of an answer that was read whole is left to a later call; each other one is closed.
    fn end(&mut self, answer: SocketAnswer<R>, how: AnswerEnd) {
        match answer {
            SocketAnswer::Call(call) => {
                self.leave();
                self.judge(&call);
                if let (AnswerEnd::Whole, Ok(member)) = (how, self.members.member(call.member)) {
                    member.idle.keep(&self.rt, call.upstream);
                }
            }
            SocketAnswer::Stream(stream) => self.leave_stream(stream, how),
        }
    }

    /// The stream's connection is shut down, so that its follower sees the end at once.
    fn forget(&mut self, stream: u64) {
        self.members.streams.forget(&self.rt, stream);
    }
}
