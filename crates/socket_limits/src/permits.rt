ghost use Rattle.std.specs.Prelude.{◌≡◌};
ghost use Rattle.socket_limits.specs.declared.uploads.TheConstants.{BYTES};

use crate::times::Until;
use crate::uploads::{BYTES, Uploads};
use std::alloc::Global;
use std::io;
use std::marker::Model;
use std::rt::Clock as Times;
use std::sync::Wait;
use std::sync::atomic::AtomicU64;
use std::sync::atomic::Ordering::SeqCst;

/// What a connection holds while a large request of it that came is worked on, so that not all of them take their memory at once, and the
/// large requests that come.
#[derive(Drop)]
pub struct Permits {
    count: u64,
    free: AtomicU64,
    /// The large requests that come.
    pub uploads: Uploads,
}

/// They are seen as how many there are in all, and how many bytes large requests may have in all.
impl Model for Permits {
    ghost use Rattle.socket_limits.specs.Room.{Room};

    ghost Value = { Room };

    ghost view = { λ p. record { permits = p.count; bytes = p.uploads } };
}

impl Permits {
    /// So many permits, all free.
    pub fn new(alloc: Global, count: u64) -> Permits
        ensures { result ≡ record { permits = count; bytes = BYTES } }
    {
        Permits::of_bytes(alloc, count, BYTES)
    }

    /// So many permits, all free, where large requests may have so many bytes in all.
    pub fn of_bytes(alloc: Global, count: u64, bytes: u64) -> Permits
        ensures { result ≡ record { permits = count; bytes = bytes } }
    {
        Permits {
            count,
            free: AtomicU64::new(count),
            uploads: Uploads::new(alloc, bytes),
        }
    }

    /// Takes a permit, and waits for one up to that moment at most.
    pub fn take<R: Wait + Times>(&self, rt: &R, until: Until) -> io::Result<()> {
        for _ in rt.forever() {
            let free = self.free.load(SeqCst);
            if free > 0 {
                if self
                    .free
                    .compare_exchange(free, free - 1, SeqCst, SeqCst)
                    .is_ok()
                {
                    return Ok(());
                }
            } else {
                self.free.park_timeout(rt, 0, until.left(rt)?);
            }
        }
        unreachable!()
    }

    /// Gives a permit back.
    pub fn give(&self) {
        self.free.fetch_add(1, SeqCst);
        self.free.wake_one();
    }
}
