use crate::duty::Duty;
use crate::handover::Handover;
use etcd_types::NoMemory;
use jiff::Timestamp;
use std::alloc::Global;
use std::io::ErrorKind;
use std::rt::Clock as Times;
use std::sync::{Arc, Wait};
use std::thread::{Builder, Threads};
use std::time::Duration;
use std::{io, thread};

/// Between two lines on the standard error are at least so many milliseconds.
const LINES_MS: u64 = 1_000;

/// So many bytes has the stack of a connection's thread, since there may be thousands. The deepest request and the largest
/// transaction that are taken fit with room to spare.
const CONNECTION_STACK_BYTES: usize = 1_048_576;

/// What a thread does with a `P` and a `Q`.
pub trait Work<R, P, Q>: Drop {
    /// Does it.
    fn work(self, rt: &R, with: P, load: Q);
}

/// What makes the work of one thread after another.
pub trait Equips<W>: Drop {
    /// The work of a thread of this duty, or nothing where some of it can't be had.
    fn equip(&self, duty: Duty) -> Option<W>;
}

/// Where what a thread works with is laid.
#[derive(Drop)]
pub struct Desk<P, Q> {
    pub with: Arc<Handover<P>, Global>,
    pub load: Arc<Handover<Q>, Global>,
}

/// How a thread of this duty begins.
fn builder_for(duty: Duty) -> Builder {
    match duty {
        Duty::Talks => Builder::new().stack_size(CONNECTION_STACK_BYTES),
        Duty::Ticks | Duty::Calls => Builder::new(),
    }
}

/// A thread that does this work with what is laid for it. It is made before anything is handed over, so that what finds no thread isn't
/// lost.
fn thread_for<
    R: Threads + Wait + Copy + Send + 'static,
    P: Drop + Send + 'static,
    Q: Drop + Send + 'static,
    W: Work<R, P, Q> + Send + 'static,
>(rt: R, alloc: Global, duty: Duty, work: W) -> io::Result<Desk<P, Q>> {
    let (Ok((with, others)), Ok((load, loads))) = (
        Handover::<P>::new(alloc),
        Handover::<Q>::new(alloc),
    ) else {
        return Err(io::Error::from(ErrorKind::OutOfMemory));
    };
    builder_for(duty).spawn(
        &rt,
        move || work.work(&rt, others.take(&rt), loads.take(&rt)),
    )?;
    Ok(Desk { with, load })
}

/// Says on the standard error why no thread was made. The line begins with its time (RFC 3339), the start of 1970 where the system
/// tells none, and its level.
fn tell<R: Eprint + Times>(rt: &R, error: &io::Error) {
    let when = Timestamp::now(rt).unwrap_or(Timestamp::UNIX_EPOCH);
    let _ = eprintln!(rt; "{when:.3} ERROR etcd_proxy: can't start a thread: {error}");
}

/// Whether a second has passed since then, or nothing is known of then.
fn is_over<R: Times>(rt: &R, then: Option<Duration>) -> bool {
    match (then, rt.monotonic()) {
        (Some(then), Ok(now)) => now.saturating_sub(then) >= Duration::from_millis(LINES_MS),
        _ => true,
    }
}

/// Who waits for a thread, and is told of its desk.
#[derive(Drop)]
pub struct Ask<P, Q> {
    /// What the thread is for.
    duty: Duty,
    desk: Arc<Handover<Option<Desk<P, Q>>>, Global>,
}

/// Makes a thread for each who asks. Of several failures in a row the first is told, where none was within a second.
fn make_threads<
    R: Threads + Wait + Times + Eprint + Copy + Send + 'static,
    P: Drop + Send + 'static,
    Q: Drop + Send + 'static,
    W: Work<R, P, Q> + Send + 'static,
    M: Equips<W>,
>(rt: R, alloc: Global, equipment: M, asked: Arc<Handover<Ask<P, Q>>, Global>) {
    let mut is_told = false;
    let mut last = None;
    for _ in rt.forever() {
        let Ask { duty, desk } = asked.take(&rt);
        let Some(work) = equipment.equip(duty) else {
            desk.lay(&rt, None);
            continue;
        };
        let made = thread_for::<R, P, Q, W>(rt, alloc, duty, work);
        if let Err(error) = &made {
            if !is_told && is_over(&rt, last) {
                tell(&rt, error);
                last = rt.monotonic().ok();
            }
        }
        is_told = made.is_err();
        desk.lay(&rt, made.ok());
    }
}

/// What makes threads, in a thread of its own: a spawner of parts asks it for one.
#[derive(Drop)]
pub struct Maker<P, Q> {
    asked: Arc<Handover<Ask<P, Q>>, Global>,
}

/// A maker of threads with this equipment that has made none, or nothing where no thread can be made for it, which is told.
pub fn begin_making<
    R: Threads + Wait + Times + Eprint + Copy + Send + 'static,
    P: Drop + Send + 'static,
    Q: Drop + Send + 'static,
    W: Work<R, P, Q> + Send + 'static,
    M: Equips<W> + Send + 'static,
>(rt: R, alloc: Global, equipment: M) -> Option<Maker<P, Q>> {
    let (ours, theirs) = Handover::<Ask<P, Q>>::new(alloc).ok()?;
    match thread::spawn(
        &rt,
        move || make_threads::<R, P, Q, W, M>(rt, alloc, equipment, theirs),
    ) {
        Ok(_) => Some(Maker { asked: ours }),
        Err(error) => {
            tell(&rt, &io::Error::from(error));
            None
        }
    }
}

impl<P: Drop, Q: Drop> Maker<P, Q> {
    /// The same, for a further spawner.
    pub fn another(&self) -> Result<Maker<P, Q>, NoMemory> {
        let asked = Arc::try_clone(&self.asked)?;
        Ok(Maker { asked })
    }

    /// The desk of a new thread of this duty, or nothing where none can be made.
    pub fn desk<R: Wait>(&self, rt: &R, alloc: Global, duty: Duty) -> Option<Desk<P, Q>> {
        let (ours, theirs) = Handover::<Option<Desk<P, Q>>>::new(alloc).ok()?;
        let ask = Ask { duty, desk: theirs };
        self.asked.lay(rt, ask);
        ours.take(rt)
    }
}
