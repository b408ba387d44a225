use std::rt::Clock as Times;
use std::sync::Wait;
use std::sync::atomic::AtomicU64;
use std::sync::atomic::Ordering::SeqCst;
use std::thread;
use std::time::Duration;

/// Whether a member answers, as far as it is known.
#[derive(Clone, Copy, Debug, PartialEq, Eq)]
pub enum Health {
    /// It did when it was asked last, or wasn't asked yet.
    Up,
    /// A call to it failed, or an asking once: it is asked next. Calls still go to it.
    Suspect,
    /// It took no byte of a call, or didn't answer twice in a row when it was asked. Calls go to others first.
    Down,
    /// It refused to be asked, since its cluster wants to know of a user. No call goes to it.
    Barred,
}

/// What came of asking a member whether it answers.
#[derive(Clone, Copy, Debug, PartialEq, Eq)]
pub enum Asked {
    /// It answered.
    Well,
    /// It didn't, or not what was asked for.
    InVain,
    /// It answered that it wants to know of a user.
    Barred,
}

/// A member that is up is asked each five seconds, another one each second, in milliseconds.
const SPACE_MS: u64 = 1_000;

const REST_MS: u64 = 4_000;

// what stands for each
const UP: u64 = 0;

const SUSPECT: u64 = 1;

const DOWN: u64 = 2;

const BARRED: u64 = 3;

/// The health of a member, as all threads see it.
#[derive(Drop)]
pub(crate) struct Pulse {
    code: AtomicU64,
}

impl Pulse {
    /// That of a member that wasn't asked yet.
    pub(crate) fn new() -> Pulse {
        Pulse {
            code: AtomicU64::new(UP),
        }
    }

    pub(crate) fn health(&self) -> Health {
        let code = self.code.load(SeqCst);
        if code == UP {
            Health::Up
        } else if code == SUSPECT {
            Health::Suspect
        } else if code == DOWN {
            Health::Down
        } else {
            Health::Barred
        }
    }

    /// It answered when it was asked.
    pub(crate) fn rise(&self) {
        self.code.store(UP, SeqCst);
    }

    /// A call to it failed: whoever asks it is woken. One that is down stays so.
    pub(crate) fn doubt(&self) {
        let _ = self.code.compare_exchange(UP, SUSPECT, SeqCst, SeqCst);
        self.code.wake_all();
    }

    /// It takes no call, or doesn't answer when it is asked.
    pub(crate) fn fall(&self) {
        self.code.store(DOWN, SeqCst);
        self.code.wake_all();
    }

    /// It refused to be asked.
    pub(crate) fn bar(&self) {
        self.code.store(BARRED, SeqCst);
    }

    /// Waits until it is to be asked again.
    pub(crate) fn rest<R: Wait + Times>(&self, rt: &R) {
        thread::sleep(rt, Duration::from_millis(SPACE_MS));
        if self.health() == Health::Up {
            // for as long as the code is that of `Up`
            self.code
                .park_timeout(rt, 0, Duration::from_millis(REST_MS));
        }
    }
}
