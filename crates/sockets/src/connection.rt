ghost use Rattle.std.specs.Prelude.{◌≡◌, ◌≤◌, IfOk};

use crate::budget::Place;
use crate::door::Client;
use crate::phase::Phase;
use crate::sink::SocketSink;
use crate::source::SocketSource;
use crate::tallies::Counted;
use crate::tally::Tally;
use etcd_types::NoMemory;
use socket_limits::{ConnectionLimits, Permits, Until, Upload, receive};
use std::alloc::Global;
use std::io;
use std::net::{Shutdown, TcpStream};
use std::rt::Clock as Times;
use std::sync::atomic::Ordering::SeqCst;
use std::sync::atomic::{AtomicBool, AtomicU64};
use std::sync::{Arc, Wait};
use std::time::Duration;

/// How many pieces are read of what a client still sends when its connection is closed, and how long each is.
const LINGER_PIECES: u32 = 16;

const LINGER_PIECE_BYTES: usize = 4_096;

/// What both ends of a connection share. The two are used by one thread at a time.
pub(crate) struct Shared {
    alloc: Global,
    pub(crate) stream: Arc<TcpStream, Global>,
    pub(crate) limits: ConnectionLimits,
    /// When the last piece was written, by `time`, or 0 where none was.
    pub(crate) written: AtomicU64,
    // whether the connection holds a permit, and how many bytes of its request are counted
    holds: AtomicBool,
    counted: AtomicU64,
    permits: Arc<Permits, Global>,
    // where it counts as one of those that there may be
    place: Option<Place>,
    // what is counted of it, where anything is
    tallied: Option<Counted>,
}

impl Shared {
    /// Takes a permit where none is held, and waits for it up to that moment at most.
    pub(crate) fn hold<R: Wait + Times>(&self, rt: &R, until: Until) -> io::Result<()> {
        if !self.holds.load(SeqCst) {
            self.permits.take(rt, until)?;
            self.holds.store(true, SeqCst);
        }
        Ok(())
    }

    /// What is counted of the connection, where anything is.
    pub(crate) fn tally(&self) -> Option<&Tally> {
        match &self.tallied {
            Some(counted) => Some(&counted.tally),
            None => None,
        }
    }

    /// Whether connections at rest are to make room soon.
    pub(crate) fn is_tight(&self) -> bool {
        match &self.place {
            Some(place) => place.is_tight(),
            None => false,
        }
    }

    /// A large request comes, whose first bytes came then.
    pub(crate) fn upload<R: Wait>(&self, rt: &R, began: u64) -> io::Result<Arc<Upload, Global>> {
        self.permits
            .uploads
            .begin(rt, self.alloc, &self.stream, began)
    }

    /// So many further bytes of it came. It waits up to that moment at most for room for them.
    pub(crate) fn count<R: Wait + Times>(
        &self,
        rt: &R,
        upload: &Upload,
        bytes: u64,
        until: Until,
    ) -> io::Result<()> {
        self.permits.uploads.take(rt, upload, bytes, until)?;
        self.counted.fetch_add(bytes, SeqCst);
        Ok(())
    }

    /// It comes no more.
    pub(crate) fn settle<R: Wait>(&self, rt: &R, upload: &Upload) {
        self.permits.uploads.end(rt, upload);
    }

    /// Gives the permit back, where one is held, and the room for the bytes of a request.
    pub(crate) fn release(&self) {
        if self.holds.swap(false, SeqCst) {
            self.permits.give();
        }
        let counted = self.counted.swap(0, SeqCst);
        if counted > 0 {
            self.permits.uploads.give(counted);
        }
    }
}

// A permit that is still held is given back.
impl Drop for Shared {
    fn drop(self) {
        self.release();
        let Shared {
            alloc: _,
            stream: _stream,
            limits: _,
            written: _,
            holds: _,
            counted: _,
            permits: _permits,
            place: _place,
            tallied: _tallied,
        } = self;
    }
}

/// The two ends of a connection, without a failure yet, with the limits that clients have. Each takes a runtime of its own.
pub fn ends_of<R: Drop>(
    alloc: Global,
    rt: R,
    further: R,
    client: Client,
    permits: Arc<Permits, Global>,
) -> Result<(SocketSource<R>, SocketSink<R>), NoMemory>
    ensures source { IfOk result (λ ends. ends.0 ≡ record { inner = rt; faults = 0 }) }
    ensures sink { IfOk result (λ ends. ends.1 ≡ record { inner = further; faults = 0 }) }
{
    let limits = ConnectionLimits::default();
    Ok(ends_within(alloc, rt, further, client, permits, limits)?)
}

/// The two ends of a connection, without a failure yet, with limits of its own.
pub fn ends_within<R: Drop>(
    alloc: Global,
    rt: R,
    further: R,
    client: Client,
    permits: Arc<Permits, Global>,
    limits: ConnectionLimits,
) -> Result<(SocketSource<R>, SocketSink<R>), NoMemory>
    ensures source { IfOk result (λ ends. ends.0 ≡ record { inner = rt; faults = 0 }) }
    ensures sink { IfOk result (λ ends. ends.1 ≡ record { inner = further; faults = 0 }) }
{
    let shared = Shared {
        alloc,
        stream: Arc::new(alloc, client.stream)?,
        limits,
        written: AtomicU64::new(0),
        holds: AtomicBool::new(false),
        counted: AtomicU64::new(0),
        permits,
        place: client.place,
        tallied: client.counted,
    };
    let shared = Arc::new(alloc, shared)?;
    let other = Arc::try_clone(&shared)?;
    let source = SocketSource {
        rt,
        shared,
        phase: Phase::Between,
        began: 0,
        came: 0,
        watches: false,
        rested: 0,
        upload: None,
        limit: Duration::ZERO,
        halt: None,
        served: None,
        heads: None,
        faults: 0,
    };
    let sink = SocketSink {
        rt: further,
        shared: other,
        limit: Duration::ZERO,
        broken: false,
        faults: 0,
    };
    Ok((source, sink))
}

/// Closes a connection so that its client still gets what was written last: says that nothing more comes, and reads what
/// the client still sends, for a second and at most 64 KB. It says how many bytes those were. A system that has unread bytes as
/// it closes would take back what the client didn't read yet.
pub fn linger<R: Wait + Times + Drop>(source: SocketSource<R>, sink: SocketSink<R>) -> usize
    ensures { result ≤ 65536 }
{
    let shared = &source.shared;
    if let Some(upload) = &source.upload {
        shared.settle(&source.rt, upload);
    }
    shared.release();
    let (Ok(()), Ok(until)) = (
        shared.stream.shutdown(Shutdown::Write),
        Until::after(&source.rt, shared.limits.linger),
    ) else {
        return 0;
    };
    let mut room = [0u8; LINGER_PIECE_BYTES];
    let mut limit = source.limit;
    let mut came = 0;
    for _ in 0..LINGER_PIECES {
        match receive(&source.rt, &shared.stream, &mut limit, &mut room, until) {
            Ok(0) | Err(_) => return came,
            Ok(count) => came += count,
        }
    }
    came
}
