ghost use Rattle.std.specs.Prelude.{◌≡◌, ◌+◌, ◌<◌, ◌↔◌, None, IfOk, IsOk, IsTrue};
ghost use Rattle.std.specs.Io.{ReadsAtMost};
ghost use Rattle.outside.specs.Faults.{HasCause};
ghost use Rattle.outside.specs.declared.link.TheConstants.{CALL_LIMIT};

use crate::members::Members;
use crate::upstream::Upstream;
use crate::users::wants_user;
use outside::{CALL_LIMIT, CallKind, Failed, ReadMark, Source};
use socket_limits::{TRIES, Until};
use std::alloc::Global;
use std::io;
use std::io::ErrorKind;
use std::rt::Clock as Times;
use std::sync::{Arc, Wait};

/// How long a scan's member may say nothing until it is asked whether it answers, and how often it is looked then what came of that,
/// in milliseconds.
const SLICE_MS: u64 = 500;

/// An answer that is to be there by a moment, and has at most `CALL_LIMIT` bytes. That of a scan may take long: it fails before where its
/// member turns out to be down.
#[derive(Drop)]
pub struct CallAnswer<R: Drop> {
    rt: R,
    members: Arc<Members, Global>,
    pub(crate) upstream: Upstream,
    /// The member that it comes from.
    pub(crate) member: u32,
    /// What its call is for.
    pub(crate) kind: CallKind,
    until: Until,
    // how many bytes may still come
    room: usize,
    /// Whether it refuses its call for want of a user, by what came first.
    pub(crate) wants_user: bool,
    pub(crate) faults: u64,
}

impl<R: Drop> CallAnswer<R> {
    /// What the member answers on this connection, of which nothing was read.
    pub(crate) fn new(
        rt: R,
        members: Arc<Members, Global>,
        upstream: Upstream,
        member: u32,
        kind: CallKind,
        until: Until,
    ) -> CallAnswer<R>
        ensures { result.faults ≡ 0 }
    {
        CallAnswer {
            rt,
            members,
            upstream,
            member,
            kind,
            until,
            room: CALL_LIMIT,
            wants_user: false,
            faults: 0,
        }
    }

    /// Whether a byte of it came.
    pub(crate) fn has_begun(&self) -> bool
        ensures { IsTrue result ↔ (self.now.room < CALL_LIMIT) }
    {
        self.room < CALL_LIMIT
    }
}

impl<R: Times + Wait + Drop> CallAnswer<R> {
    // Reads the next bytes of a scan's answer, for as long as its member isn't down.
    fn scan(&mut self, room: &mut [u8]) -> io::Result<usize>
        ensures count { ReadsAtMost result room.new }
        ensures kept { (self.new.room ≡ self.old.room) × (self.new.faults ≡ self.old.faults) }
    {
        for _ in 0..TRIES {
            let slice = self.until.or_after(&self.rt, SLICE_MS)?;
            match self.upstream.receive(&self.rt, room, slice) {
                Err(error) if error.kind() == ErrorKind::TimedOut && self.goes_on() => {}
                done => return done,
            }
        }
        Err(io::Error::from(ErrorKind::TimedOut))
    }

    // Whether more may come from a scan that said nothing for a while. Its member is asked.
    fn goes_on(&self) -> bool {
        let Ok(member) = self.members.member(self.member) else {
            return false;
        };
        member.pulse.doubt();
        self.until.left(&self.rt).is_ok() && !member.is_down()
    }

    // Reads once. An answer without a byte is none.
    fn receive(&mut self, room: &mut [u8]) -> io::Result<usize>
        ensures count { ReadsAtMost result room.new }
        ensures some { IfOk result (λ count. self.old.room ≡ CALL_LIMIT → 0 < count) }
        ensures room { IfOk result (λ count. self.new.room + count ≡ self.old.room) }
        ensures faults { self.new.faults ≡ self.old.faults }
    {
        let count = match self.kind {
            CallKind::Scans => self.scan(room)?,
            _ => self.upstream.receive(&self.rt, room, self.until)?,
        };
        if count == 0 && !self.has_begun() {
            return Err(io::Error::from(ErrorKind::UnexpectedEof));
        }
        if !self.has_begun() {
            self.wants_user = wants_user(self.kind, &room[..count]);
        }
        match self.room.checked_sub(count) {
            Some(left) => {
                self.room = left;
                Ok(count)
            }
            None => Err(io::Error::new(ErrorKind::InvalidData, "the answer has more than 64 MiB")),
        }
    }
}

impl<R: Times + Wait + Drop> Source for CallAnswer<R> {
    ghost left = { λ s. None };

    ghost faults = { λ s. s.faults };

    ghost reads = { λ old size came new. Unit {0} };

    /// An answer that ends before its first byte has failed.
    fn read(&mut self, room: &mut [u8]) -> Result<usize, Failed>
        ensures bound { ReadsAtMost result room.new }
        ensures some { IfOk result (λ count. self.old.room ≡ CALL_LIMIT → 0 < count) }
        ensures cause { HasCause self.old.faults self.new.faults result }
    {
        match self.receive(room) {
            Ok(count) => Ok(count),
            Err(_) => {
                self.faults = self.faults.saturating_add(1);
                Err(Failed)
            }
        }
    }

    /// A member that is gone is seen by the next read.
    fn check(&mut self) -> Result<(), Failed>
        ensures there { IsOk result }
        ensures stays { self.new ≡ self.old }
    {
        Ok(())
    }

    /// All of it has one limit of time.
    fn mark(&mut self, _mark: ReadMark)
        ensures stays { self.new ≡ self.old }
    {}
}
