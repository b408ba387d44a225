ghost use Rattle.std.specs.Prelude.{◌≡◌, ◌≢◌, ◌↔◌, length, IfOk, IsOk, OnOk};
ghost use Rattle.member_links.specs.Numbers.{IsThere};

use crate::busy::Busy;
use crate::counts::CallCounts;
use crate::health::{Asked, Health};
use crate::member::Member;
use crate::streams::Streams;
use crate::traffic::StreamCount;
use crate::unread::UnreadRanges;
use etcd_types::{Bytes, List, NoMemory};
use socket_limits::{Pace, Permits, line_time};
use state_file::Sessions;
use std::alloc::Global;
use std::fmt::Display;
use std::io;
use std::io::ErrorKind;
use std::marker::Model;
use std::net::Net;
use std::rt::Clock as Times;
use std::sync::atomic::AtomicU64;
use std::sync::atomic::Ordering::SeqCst;
use std::sync::{Arc, Wait};

/// Between two lines on the standard error are at least so many milliseconds.
const LINES_MS: u64 = 1_000;

/// Between two lines on calls that were refused for want of a user are at least so many.
const USERS_MS: u64 = 60_000;

/// The members of a cluster, as all links of a process share them.
#[derive(Drop)]
pub struct Members {
    pub(crate) alloc: Global,
    all: Vec<Member>,
    // when the last line was written, and the last one of users
    pace: Pace,
    users: Pace,
    /// The streams that were begun at them.
    pub(crate) streams: Streams,
    /// The ranges whose streams bring messages that are too long.
    pub(crate) unread: UnreadRanges,
    /// What a stream holds while a large message of it comes.
    pub(crate) large: Permits,
    /// Those who make calls to them.
    pub(crate) busy: Busy,
    /// The sessions that are begun at them, where they are to be known.
    pub(crate) sessions: Option<Arc<Sessions, Global>>,
    /// How many calls of workers no member took a byte of.
    pub(crate) untaken: AtomicU64,
}

/// It is seen as how many members there are.
impl Model for Members {
    ghost use Rattle.std.specs.Prelude.{ℕ, vec_len};

    ghost Value = { ℕ };

    ghost view = { λ m. vec_len m.all };
}

/// Whether an error says nothing of a member: memory, descriptors or ports of this machine were wanting.
fn is_wanting(error: &io::Error) -> bool {
    // ENOMEM, ENFILE, EMFILE, EADDRNOTAVAIL, ENOBUFS
    error.kind() == ErrorKind::OutOfMemory
        || matches!(error.raw_os_error(), Some(12 | 23 | 24 | 99 | 105))
}

impl Members {
    /// The members at these hosts, `host:port` each, member 1 first. Names are looked up here, and again where a member takes no
    /// connection. A host that isn't such a text is a member that doesn't answer.
    pub fn new<R: Net>(rt: &R, alloc: Global, hosts: &List<Bytes>) -> Result<Members, NoMemory>
        ensures { IfOk result (λ members. members ≡ length hosts.now) }
    {
        let mut all = Vec::new(alloc);
        let mut number: u32 = 0;
        for host in hosts.as_slice() {
            number = number.saturating_add(1);
            all.push(Member::new(rt, alloc, number, host)?)?;
        }
        Ok(Members {
            alloc,
            all,
            pace: Pace::new(),
            users: Pace::new(),
            streams: Streams::new(alloc),
            unread: UnreadRanges::new(alloc),
            large: Permits::new(alloc, 1),
            busy: Busy::new(0),
            sessions: None,
            untaken: AtomicU64::new(0),
        })
    }

    /// The same members, to which so many workers make calls: where all of them are busy, that is said on the standard error.
    pub fn with_workers(self, workers: u64) -> Members
        ensures { result ≡ self }
    {
        Members {
            busy: Busy::new(workers),
            ..self
        }
    }

    /// The same members, at which these sessions are begun.
    pub fn with_sessions(self, sessions: Arc<Sessions, Global>) -> Members
        ensures { result ≡ self }
    {
        Members {
            sessions: Some(sessions),
            ..self
        }
    }

    // A session of this number is about to be begun.
    pub(crate) fn begin_session<R: Wait>(&self, rt: &R, number: u64) -> io::Result<()> {
        match &self.sessions {
            Some(sessions) => sessions.begin(rt, number),
            None => Ok(()),
        }
    }

    /// The member of this number. It is `NotFound` where there is none.
    pub(crate) fn member(&self, number: u32) -> io::Result<&Member>
        ensures { IsOk result ↔ IsThere self.now number }
    {
        let place = (number as usize).wrapping_sub(1);
        self.all
            .get(place)
            .ok_or(io::Error::from(ErrorKind::NotFound))
    }

    /// The members that a call to the one of this number goes to, one after the other as long as none takes a byte of it: that one
    /// and those behind it, then those before it, but those that are down behind all others, and none that refused to be asked.
    pub(crate) fn order(&self, number: u32) -> io::Result<Vec<&Member>>
        ensures { OnOk result (IsThere self.now number) }
    {
        let first = self.member(number)?.number;
        let mut order = Vec::new(self.alloc);
        let mut down = Vec::new(self.alloc);
        let behind = self.all.iter().filter(|member| member.number >= first);
        let before = self.all.iter().filter(|member| member.number < first);
        for member in behind.chain(before) {
            match member.pulse.health() {
                Health::Up | Health::Suspect => order.push(member)?,
                Health::Down => down.push(member)?,
                Health::Barred => {}
            }
        }
        for member in down {
            order.push(member)?;
        }
        Ok(order)
    }

    /// Whether all members are down.
    pub(crate) fn none_answers(&self) -> bool {
        self.all.iter().all(|member| member.is_down())
    }

    // The number of the member that calls to this one go to.
    fn stand_in(&self, member: &Member) -> Option<u32> {
        let order = self.order(member.number).ok()?;
        let next = order.first()?;
        if next.is_down() {
            None
        } else {
            Some(next.number)
        }
    }

    // Whether it may be told now that a member answers, or doesn't, where that isn't what was told of it last. What can't be told
    // now, since a line was written less than a second ago, is told later: one that is down is asked each second.
    fn tells<R: Times>(&self, rt: &R, member: &Member, fails: bool) -> bool {
        if member.is_told.load(SeqCst) == fails || !self.pace.is_due(rt, LINES_MS) {
            return false;
        }
        member.is_told.store(fails, SeqCst);
        true
    }

    // A member is down: its calls go to another one, and connections to it that rest are closed. The cause is told.
    fn fall<R: Times + Wait + Eprint, D: Display + Drop>(&self, rt: &R, member: &Member, cause: D) {
        member.pulse.fall();
        member.idle.close(rt);
        if !self.tells(rt, member, true) {
            return;
        }
        let number = member.number;
        let host = member.host.as_str();
        let when = line_time(rt);
        let _ = match self.stand_in(member) {
            Some(other) => {
                eprintln!(rt;
                    "{when:.3} WARN etcd_proxy: member {number} ({host}) doesn't answer: {cause}; its calls go to member {other}"
                )
            }
            None => eprintln!(rt;
                "{when:.3} WARN etcd_proxy: member {number} ({host}) doesn't answer: {cause}"
            ),
        };
    }

    /// A member took no byte of a call.
    pub(crate) fn untouched<R: Times + Wait + Eprint>(
        &self,
        rt: &R,
        member: &Member,
        error: &io::Error,
    ) {
        if is_wanting(error) {
            member.is_unasked.store(true, SeqCst);
        } else {
            self.fall(rt, member, error);
        }
    }

    /// The answer to a call failed, or its sending behind the first byte: its member is asked next, and connections to it that rest
    /// are closed.
    pub(crate) fn doubt<R: Wait>(&self, rt: &R, member: &Member) {
        member.pulse.doubt();
        member.idle.close(rt);
    }

    /// A member was asked whether it answers. One that was up and didn't is asked again before its calls go to another one.
    pub fn asked<R: Times + Wait + Eprint>(&self, rt: &R, number: u32, came: Asked) {
        let Ok(member) = self.member(number) else {
            return;
        };
        let is_unasked = member.is_unasked.swap(false, SeqCst);
        match came {
            Asked::Well => self.rise(rt, member),
            Asked::Barred => self.bar(rt, member),
            // nothing is known of it
            Asked::InVain if is_unasked => {}
            Asked::InVain if member.pulse.health() == Health::Up => member.pulse.doubt(),
            Asked::InVain => {
                self.fall(
                    rt,
                    member,
                    "it was asked for the state of the cluster in vain",
                )
            }
        }
    }

    // A member answers.
    fn rise<R: Times + Eprint>(&self, rt: &R, member: &Member) {
        member.pulse.rise();
        if self.tells(rt, member, false) {
            let number = member.number;
            let host = member.host.as_str();
            let when = line_time(rt);
            let _ = eprintln!(rt;
                "{when:.3} INFO etcd_proxy: member {number} ({host}) answers again"
            );
        }
    }

    // No call goes to a member: what it would answer to some, such as a keepalive, would be no word of a cluster that serves this proxy.
    fn bar<R: Times + Wait + Eprint>(&self, rt: &R, member: &Member) {
        member.pulse.bar();
        member.idle.close(rt);
        if self.tells(rt, member, true) {
            let number = member.number;
            let host = member.host.as_str();
            let when = line_time(rt);
            let _ = eprintln!(rt;
                "{when:.3} WARN etcd_proxy: member {number} ({host}) asks for a user, and this proxy has none"
            );
        }
    }

    /// A member refused a call since it wants to know of a user: it is asked next.
    pub(crate) fn refused<R: Times + Wait + Eprint>(&self, rt: &R, member: &Member) {
        self.doubt(rt, member);
        if self.users.is_due(rt, USERS_MS) {
            let number = member.number;
            let host = member.host.as_str();
            let when = line_time(rt);
            let _ = eprintln!(rt;
                "{when:.3} WARN etcd_proxy: member {number} ({host}) refused a call, since it asks for a user, and this proxy has none"
            );
        }
    }

    /// Waits until a member is to be asked again: each five seconds, or each second where it isn't up.
    pub fn rest<R: Wait + Times>(&self, rt: &R, number: u32) {
        if let Ok(member) = self.member(number) {
            member.pulse.rest(rt);
        }
    }

    /// What was counted of the workers' calls to a member, and its address as it was named, where it is there.
    pub fn calls(&self, number: u32) -> Option<(&str, CallCounts)> {
        let member = self.member(number).ok()?;
        Some((member.host.as_str(), member.calls.counts()))
    }

    /// How many calls of workers no member took a byte of.
    pub fn untaken(&self) -> u64 {
        self.untaken.load(SeqCst)
    }

    /// How many workers make calls, or 0 where nobody said, and how many are inside one.
    pub fn workers(&self) -> (u64, u64) {
        self.busy.counts()
    }

    /// How many streams of members are followed.
    pub fn streams<R: Wait>(&self, rt: &R) -> u64 {
        self.streams.count(rt)
    }

    /// Those of them on which the most messages came since they were begun, `most` at most, the busiest first.
    pub fn busiest<R: Wait>(&self, rt: &R, most: usize) -> Result<Vec<StreamCount>, NoMemory> {
        self.streams.busiest(rt, self.alloc, most)
    }

    /// Whether a member answers, as far as it is known. One that isn't there is down.
    pub fn health(&self, number: u32) -> Health
        ensures { (result ≢ Health.Down) → IsThere self.now number }
    {
        match self.member(number) {
            Ok(member) => member.pulse.health(),
            Err(_) => Health::Down,
        }
    }
}
