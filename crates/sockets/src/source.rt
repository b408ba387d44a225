ghost use Rattle.std.specs.Prelude.{◌≡◌, ◌<◌, ◌==◌, ◌&&◌, None, IfOk};
ghost use Rattle.std.specs.Duration.{as_nanos};
ghost use Rattle.std.specs.Io.{ReadsAtMost};
ghost use Rattle.sockets.specs.Phases.{is_between};

use crate::connection::Shared;
use crate::halt::{Halt, Served};
use crate::heads::Heads;
use crate::phase::Phase;
use outside::{Failed, ReadMark, RequestKind, Source};
use socket_limits::{TRIES, Until, Upload, glance};
use std::alloc::Global;
use std::io::{ErrorKind, Read};
use std::marker::Model;
use std::rt::Clock as Times;
use std::sync::atomic::Ordering::SeqCst;
use std::sync::{Arc, Wait};
use std::time::Duration;
use std::{io, thread};

/// A first byte is waited for so many milliseconds at a time: where connections are to make room, one that rests has no more.
const SLICE_MS: u64 = 30_000;

/// A request that has more bytes counts with those of others, and needs a permit once it came.
const LARGE_BYTES: u64 = 65_536;

/// Where a connection's bytes come from. A read waits ten minutes for the first byte behind a request, or half a minute where
/// connections are to make room; then half a minute in all for the rest of a head, and as much in all for a body. Where more than
/// 64 KB come, it also waits for room for them. That a head or a body was read is said by marks. So the prefix of a request that came
/// with an earlier one has ten minutes again.
#[derive(Drop)]
pub struct SocketSource<R: Drop> {
    pub(crate) rt: R,
    pub(crate) shared: Arc<Shared, Global>,
    pub(crate) phase: Phase,
    /// When the first byte of the last request came, by `time`, or 0 where none did.
    pub(crate) began: u64,
    /// How many bytes came since the last body was read.
    pub(crate) came: u64,
    /// Whether the last request is a watch.
    pub(crate) watches: bool,
    /// How many milliseconds a first byte was waited for in vain.
    pub(crate) rested: u64,
    /// The request that comes, where it is large.
    pub(crate) upload: Option<Arc<Upload, Global>>,
    /// The limit of time that the socket has for a read; zero where none was set.
    pub(crate) limit: Duration,
    /// By what it is told to read no further request, where anybody may tell it so; and that one is being served.
    pub(crate) halt: Option<Arc<Halt, Global>>,
    pub(crate) served: Option<Served>,
    /// What is told of the heads that come, where anything is.
    pub(crate) heads: Option<Arc<Heads, Global>>,
    pub(crate) faults: u64,
}

impl<R: Drop> SocketSource<R> {
    /// The same source, which ends before its next request once this is called for a stop.
    pub fn until(self, halt: Arc<Halt, Global>) -> SocketSource<R>
        ensures { result ≡ self }
    {
        SocketSource {
            halt: Some(halt),
            ..self
        }
    }

    /// The same source, of whose first request it is told what is told of heads.
    pub fn telling(self, heads: Arc<Heads, Global>) -> SocketSource<R>
        ensures { result ≡ self }
    {
        SocketSource {
            heads: Some(heads),
            ..self
        }
    }
}

impl<R: Drop> Model for SocketSource<R> {
    ghost use Rattle.outside.specs.Faults.{Counted};

    ghost Value = { Counted R };

    ghost view = { λ s. record { inner = s.rt; faults = s.faults } };
}

/// Whether a request is to come, where the last one was replied to in the millisecond in which it began.
fn is_next_near(phase: Phase, began: u64, written: u64) -> bool
    ensures { result ≡ (is_between phase && (began == written)) }
{
    phase.is_between() && began == written
}

impl<R: Wait + Times + Eprint + Drop> SocketSource<R> {
    // How long the next read may wait. A body has its limit from its first read on.
    fn left(&mut self) -> io::Result<Duration>
        ensures some { IfOk result (λ left. 0 < as_nanos left) }
        ensures faults { self.new.faults ≡ self.old.faults }
    {
        let limits = self.shared.limits;
        match self.phase {
            Phase::Between => Ok(Duration::from_millis(limits.first_byte.min(SLICE_MS).max(1))),
            Phase::Head(until) | Phase::Body(until) => Ok(until.left(&self.rt)?),
            Phase::Due => {
                self.phase = Phase::Body(Until::after(&self.rt, limits.body)?);
                Ok(Duration::from_millis(limits.body.max(1)))
            }
        }
    }

    // Whether a first byte is waited for on, behind a slice in which none came.
    fn rests_on(&mut self) -> bool
        ensures { self.new.faults ≡ self.old.faults }
    {
        self.rested = self.rested.saturating_add(SLICE_MS);
        self.phase.is_between()
            && self.rested < self.shared.limits.first_byte
            && !self.shared.is_tight()
    }

    // Notes that the first bytes of a request came, and says until when its head has time.
    fn begin(&mut self) -> io::Result<Until>
        ensures { self.new.faults ≡ self.old.faults }
    {
        let limit = self.shared.limits.head;
        let until = Until::after(&self.rt, limit)?;
        if let Some(halt) = &self.halt {
            self.served = Served::count(halt);
        }
        self.began = until.end.saturating_sub(limit);
        self.phase = Phase::Head(until);
        Ok(until)
    }

    // Looks at the first piece of the first request.
    fn look(&self, piece: &[u8]) {
        if let (Some(heads), 0) = (&self.heads, self.began) {
            heads.look(&self.rt, piece);
        }
    }

    // Notes that so many bytes came, and waits for room for those of a large request.
    fn note(&mut self, count: usize) -> io::Result<()>
        ensures { self.new.faults ≡ self.old.faults }
    {
        let until = match self.phase {
            Phase::Head(until) | Phase::Body(until) => until,
            // a wait for a body has made `Due` a `Body`
            Phase::Between | Phase::Due => self.begin()?,
        };
        self.came = self.came.saturating_add(count as u64);
        self.rested = 0;
        match &self.upload {
            Some(upload) if count > 0 => {
                self.shared.count(&self.rt, upload, count as u64, until)?;
            }
            None if self.came > LARGE_BYTES => {
                let upload = self.shared.upload(&self.rt, self.began)?;
                let counted = self.shared.count(&self.rt, &upload, self.came, until);
                self.upload = Some(upload);
                counted?;
            }
            _ => {}
        }
        Ok(())
    }

    // Notes that a request came whole. A large one waits for a permit, for as long as a body may take at most.
    fn came_whole(&mut self)
        ensures { self.new.faults ≡ self.old.faults }
    {
        self.came = 0;
        if let Some(upload) = self.upload.take() {
            self.shared.settle(&self.rt, &upload);
            if let Ok(until) = Until::after(&self.rt, self.shared.limits.body) {
                let _ = self.shared.hold(&self.rt, until);
            }
        }
    }

    // Whether the connection is over before its next request. One that was read before has its reply by now.
    fn is_over(&mut self) -> bool
        ensures { self.new.faults ≡ self.old.faults }
    {
        if !self.phase.is_between() {
            return false;
        }
        if let Some(tally) = self.shared.tally() {
            tally.rests();
        }
        self.served = None;
        match &self.halt {
            Some(halt) => halt.stops(),
            None => false,
        }
    }

    // Reads once. The socket is told a limit only where it has another. Behind a reply that was given at once others have their
    // turn first: where all processors are busy the next request is there by then, and this thread needs no rest and nobody to
    // wake it.
    fn receive(&mut self, room: &mut [u8]) -> io::Result<usize>
        ensures count { ReadsAtMost result room.new }
        ensures faults { self.new.faults ≡ self.old.faults }
    {
        if self.is_over() {
            return Ok(0);
        }
        let left = self.left()?;
        if left != self.limit {
            self.shared.stream.set_read_timeout(Some(left))?;
            self.limit = left;
        }
        if is_next_near(self.phase, self.began, self.shared.written.load(SeqCst)) {
            thread::yield_now();
        }
        let mut stream = &*self.shared.stream;
        let count = stream.read(room)?;
        self.look(&room[..count]);
        self.note(count)?;
        Ok(count)
    }
}

impl<R: Wait + Times + Eprint + Drop> Source for SocketSource<R> {
    ghost left = { λ s. None };

    ghost faults = { λ s. s.faults };

    ghost reads = { λ old size came new. Unit {0} };

    fn read(&mut self, room: &mut [u8]) -> Result<usize, Failed> {
        for _ in 0..TRIES {
            match self.receive(room) {
                Ok(count) => return Ok(count),
                Err(error) if error.kind() == ErrorKind::Interrupted => {}
                Err(error) if error.kind() == ErrorKind::WouldBlock && self.rests_on() => {}
                Err(_) => break,
            }
        }
        self.faults = self.faults.saturating_add(1);
        Err(Failed)
    }

    /// The other end is gone where the connection failed, and for a watch also where it was closed. Of a client that closed its writing
    /// half alone no more is seen than of one that closed both, and each other request has its reply soon.
    fn check(&mut self) -> Result<(), Failed> {
        let is_there = match glance(&self.shared.stream) {
            Ok(count) => count > 0 || !self.watches,
            Err(error) => { matches!(error.kind(), ErrorKind::WouldBlock | ErrorKind::Interrupted) }
        };
        if is_there {
            return Ok(());
        }
        self.faults = self.faults.saturating_add(1);
        Err(Failed)
    }

    fn mark(&mut self, mark: ReadMark) {
        if let ReadMark::Request(kind) = mark {
            if let Some(tally) = self.shared.tally() {
                tally.asked(kind);
            }
            self.watches = kind == RequestKind::Watch;
            if self.watches {
                self.served = None;
            }
        }
        self.phase = self.phase.after(mark);
        if self.phase.is_between() {
            self.came_whole();
        }
    }
}
