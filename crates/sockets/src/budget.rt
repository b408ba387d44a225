//! How many connections of clients there may be, by the descriptors that the system lets the process have.

ghost use Rattle.std.specs.Prelude.{◌≡◌, ◌≤◌, ◌<◌, ◌-◌, ◌/◌, min, max, IsSome};
ghost use Rattle.std.specs.Arc.{arc_value};

use libc::types::rlimit;
use libc::{RLIMIT_NOFILE, getrlimit};
use std::alloc::Global;
use std::marker::Model;
use std::sync::Arc;
use std::sync::atomic::AtomicU64;
use std::sync::atomic::Ordering::SeqCst;

/// A quarter of the descriptors is left for members and what else is open, and so many at the least.
const RESERVE: u64 = 64;

/// The descriptors that the process may have, or nothing where the system doesn't tell.
fn descriptors() -> Option<u64> {
    let mut limit = rlimit {
        rlim_cur: 0,
        rlim_max: 0,
    };
    if getrlimit(RLIMIT_NOFILE, &mut limit) == 0 {
        Some(limit.rlim_cur)
    } else {
        None
    }
}

/// The connections that a process with so many descriptors may have, so many at most, and one in any case.
fn room(most: u64, descriptors: u64) -> u64
    ensures { result ≡ min most (max (descriptors - max 64 (descriptors / 4)) 1) }
{
    let left = descriptors.saturating_sub(RESERVE.max(descriptors / 4));
    most.min(left.max(1))
}

/// The connections that a process may have at once.
#[derive(Drop)]
pub struct Budget {
    most: u64,
    taken: AtomicU64,
}

/// They are seen as how many there are in all.
impl Model for Budget {
    ghost use Rattle.std.specs.Prelude.{ℕ};

    ghost Value = { ℕ };

    ghost view = { λ b. b.most };
}

impl Budget {
    /// So many, all free.
    pub fn new(most: u64) -> Budget
        ensures { result ≡ most }
    {
        Budget {
            most,
            taken: AtomicU64::new(0),
        }
    }

    /// So many, or fewer where the system doesn't let the process have as many descriptors.
    pub fn of_system(most: u64) -> Budget
        ensures most { result ≤ most }
        ensures one { min most 1 ≤ result }
    {
        match descriptors() {
            Some(all) => Budget::new(room(most, all)),
            None => Budget::new(most),
        }
    }

    /// How many there may be.
    pub fn most(&self) -> u64
        ensures { result ≡ self.now }
    {
        self.most
    }

    /// Whether three quarters are taken, so that those at rest are to make room soon.
    pub(crate) fn is_tight(&self) -> bool {
        self.taken.load(SeqCst).saturating_mul(4) >= self.most.saturating_mul(3)
    }
}

/// One of the connections that there may be.
pub(crate) struct Place {
    budget: Arc<Budget, Global>,
}

impl Place {
    /// Takes one, or nothing where all are taken.
    pub(crate) fn take(budget: &Arc<Budget, Global>) -> Option<Place>
        ensures { IsSome result → 0 < arc_value budget.now }
    {
        let budget = Arc::try_clone(budget).ok()?;
        let before = budget.taken.fetch_add(1, SeqCst);
        let most = budget.most;
        let place = Place { budget };
        if before < most { Some(place) } else { None }
    }

    /// Whether those at rest are to make room soon.
    pub(crate) fn is_tight(&self) -> bool {
        self.budget.is_tight()
    }
}

// A connection that ended makes room.
impl Drop for Place {
    fn drop(self) {
        let Place { budget } = self;
        budget.taken.fetch_sub(1, SeqCst);
    }
}
