//! The memory that large requests take until they are replied to, by the bytes that came of them.
ghost use Rattle.std.specs.Prelude.{◌≡◌, ◌≤◌, IsTrue, OnOk};

use crate::log::Pace;
use crate::times::{Until, time};
use std::alloc::Global;
use std::io::ErrorKind;
use std::marker::Model;
use std::net::{Shutdown, TcpStream};
use std::rt::Clock as Times;
use std::sync::atomic::Ordering::SeqCst;
use std::sync::atomic::{AtomicBool, AtomicU64};
use std::sync::{Arc, Mutex, Wait};
use std::time::Duration;
use std::{io, thread};

/// Large requests may have so many bytes in all.
pub(crate) const BYTES: u64 = 268_435_456;

/// Where they have, one that waits for room looks again each so many milliseconds, and one of them is ended each so many.
const PAUSE_MS: u64 = 20;

const ENDS_MS: u64 = 100;

/// A large request that still comes.
#[derive(Drop)]
pub struct Upload {
    number: u64,
    socket: Arc<TcpStream, Global>,
    // how many bytes came of it, and when the first ones did, by `time`
    bytes: AtomicU64,
    began: u64,
    // how many milliseconds it stood in the line for room, and since when it stands there, 0 where it doesn't
    waited: AtomicU64,
    stands: AtomicU64,
    is_ended: AtomicBool,
}

impl Upload {
    // How many milliseconds it had to come in: none of those in which it stood in the line.
    fn age(&self, now: u64) -> u64 {
        let stands = self.stands.load(SeqCst);
        let last = if stands == 0 { now } else { stands.min(now) };
        last.saturating_sub(self.began)
            .saturating_sub(self.waited.load(SeqCst))
    }

    // Whether it comes more slowly than another one.
    fn is_slower(&self, other: &Upload, now: u64) -> bool {
        let (ours, theirs) = (self.age(now), other.age(now));
        let (few, many) = (self.bytes.load(SeqCst), other.bytes.load(SeqCst));
        few.saturating_mul(theirs) < many.saturating_mul(ours)
    }

    // The system closes its connection, whose thread sees that.
    fn end(&self) {
        self.is_ended.store(true, SeqCst);
        let _ = self.socket.shutdown(Shutdown::Both);
    }
}

// The slowest one.
fn slowest(coming: &[Arc<Upload, Global>], now: u64) -> Option<&Upload> {
    let mut slowest: Option<&Upload> = None;
    for upload in coming.iter() {
        if slowest.is_none_or(|other| upload.is_slower(other, now)) {
            slowest = Some(upload);
        }
    }
    slowest
}

/// The large requests of a process.
#[derive(Drop)]
pub struct Uploads {
    most: u64,
    // how many bytes came of those that weren't replied to
    used: AtomicU64,
    // how many wait for room, and their numbers in the order in which they came
    waiting: AtomicU64,
    line: Mutex<Vec<u64>>,
    // how many numbers were given
    numbered: AtomicU64,
    // when one was ended last
    pace: Pace,
    coming: Mutex<Vec<Arc<Upload, Global>>>,
}

/// They are seen as how many bytes they may have in all.
impl Model for Uploads {
    ghost use Rattle.std.specs.Prelude.{ℕ};

    ghost Value = { ℕ };

    ghost view = { λ u. u.most };
}

impl Uploads {
    /// None, which may have so many bytes in all.
    pub(crate) fn new(alloc: Global, most: u64) -> Uploads
        ensures { result ≡ most }
    {
        Uploads {
            most,
            used: AtomicU64::new(0),
            waiting: AtomicU64::new(0),
            line: Mutex::new(Vec::new(alloc)),
            numbered: AtomicU64::new(0),
            pace: Pace::new(),
            coming: Mutex::new(Vec::new(alloc)),
        }
    }

    /// A request comes over that connection, since then. None of its bytes is counted yet.
    pub fn begin<R: Wait>(
        &self,
        rt: &R,
        alloc: Global,
        socket: &Arc<TcpStream, Global>,
        began: u64,
    ) -> io::Result<Arc<Upload, Global>> {
        let upload = Upload {
            number: self.numbered.fetch_add(1, SeqCst),
            socket: Arc::try_clone(socket)?,
            bytes: AtomicU64::new(0),
            began,
            waited: AtomicU64::new(0),
            stands: AtomicU64::new(0),
            is_ended: AtomicBool::new(false),
        };
        let upload = Arc::new(alloc, upload)?;
        self.coming.lock(rt).push(Arc::try_clone(&upload)?)?;
        Ok(upload)
    }

    /// A request comes no more.
    pub fn end<R: Wait>(&self, rt: &R, upload: &Upload) {
        let mut coming = self.coming.lock(rt);
        coming.retain(|other| other.number != upload.number);
    }

    /// Counts so many bytes that came of a request. Where there is no room for them it waits, behind those that came before, up to that
    /// moment, and the slowest that still comes is ended, one after the other, until there is.
    pub fn take<R: Wait + Times>(
        &self,
        rt: &R,
        upload: &Upload,
        bytes: u64,
        until: Until,
    ) -> io::Result<()>
        ensures { OnOk result (bytes ≤ self.now) }
    {
        upload.bytes.fetch_add(bytes, SeqCst);
        if self.waiting.load(SeqCst) == 0 && self.counts(bytes) {
            return Ok(());
        }
        let since = time(rt)?;
        let number = self.stand(rt)?;
        upload.stands.store(since, SeqCst);
        let taken = self.wait(rt, upload, number, bytes, until);
        self.leave(rt, number);
        upload.stands.store(0, SeqCst);
        upload
            .waited
            .fetch_add(time(rt)?.saturating_sub(since), SeqCst);
        taken
    }

    /// So many bytes were replied to.
    pub fn give(&self, bytes: u64) {
        self.used.fetch_sub(bytes, SeqCst);
    }

    // Counts so many bytes, where there is room for them.
    fn counts(&self, bytes: u64) -> bool
        ensures { IsTrue result → bytes ≤ self.now }
    {
        let most = self.most;
        self.used
            .fetch_update(SeqCst, SeqCst, |used| {
                used.checked_add(bytes).filter(|sum| *sum <= most)
            })
            .is_ok()
    }

    // Stands behind those that wait, with a number.
    fn stand<R: Wait>(&self, rt: &R) -> io::Result<u64> {
        let mut line = self.line.lock(rt);
        let number = self.numbered.fetch_add(1, SeqCst);
        line.push(number)?;
        self.waiting.store(line.len() as u64, SeqCst);
        Ok(number)
    }

    fn leave<R: Wait>(&self, rt: &R, number: u64) {
        let mut line = self.line.lock(rt);
        line.retain(|other| *other != number);
        self.waiting.store(line.len() as u64, SeqCst);
    }

    fn is_first<R: Wait>(&self, rt: &R, number: u64) -> bool {
        self.line.lock(rt).first() == Some(&number)
    }

    // Waits until it is the first one and has its room.
    fn wait<R: Wait + Times>(
        &self,
        rt: &R,
        upload: &Upload,
        number: u64,
        bytes: u64,
        until: Until,
    ) -> io::Result<()>
        ensures { OnOk result (bytes ≤ self.now) }
    {
        for _ in rt.forever() {
            if self.is_first(rt, number) {
                if self.counts(bytes) {
                    return Ok(());
                }
                if self.pace.is_due(rt, ENDS_MS) {
                    self.end_slowest(rt, time(rt)?);
                }
            }
            if upload.is_ended.load(SeqCst) {
                return Err(io::Error::from(ErrorKind::ConnectionAborted));
            }
            until.left(rt)?;
            thread::sleep(rt, Duration::from_millis(PAUSE_MS));
        }
        unreachable!()
    }

    // Ends the slowest one that still comes, and wasn't ended yet.
    fn end_slowest<R: Wait>(&self, rt: &R, now: u64) {
        let mut coming = self.coming.lock(rt);
        coming.retain(|upload| !upload.is_ended.load(SeqCst));
        if let Some(upload) = slowest(coming.as_slice(), now) {
            upload.end();
        }
    }
}
