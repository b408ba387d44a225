// Where threads rest. No clause speaks of it: a thread may rest for any time, and a wake too many costs time alone. That
// no wake-up is lost is argued below, and tried by the program `service_trial`.
ghost use Rattle.std.specs.Prelude.{◌≡◌};

use crate::turn::{Board, TURN};
use etcd_types::NoMemory;
use outside::{CREWS, LOT_WORDS, LOTS, Machine, Roused};
use std::alloc::Global;
use std::sync::Wait;
use std::sync::atomic::AtomicU64;
use std::sync::atomic::Ordering::SeqCst;
use std::time::Duration;

/// How many seconds a pass rests at most, and a thread parks for the turn. A wake-up that was lost would then be a delay,
/// and no hang.
pub const LONGEST_REST_SECONDS: u64 = 10;

// How often a lot was roused, and how many passes came to rest in it. In a lot whose passes all wake these are counted from
// the last time that it was roused, so that a lot whose passes were woken, and didn't run yet, isn't woken again.
#[derive(Drop)]
struct Lot {
    changes: AtomicU64,
    sleepers: AtomicU64,
}

// The threads that wait for the turn, and the passes that wait for something to take. `sleepers` counts the threads that
// park for the turn, `frees` how often one of them was called, and `called` is 1 while one that was called looks for the
// turn. `everybody` counts how often all passes were roused, and `resting` how many rest in all.
#[derive(Drop)]
pub(crate) struct Waiting {
    sleepers: AtomicU64,
    frees: AtomicU64,
    called: AtomicU64,
    everybody: AtomicU64,
    resting: AtomicU64,
    lots: Vec<Lot>,
}

// The lot of a pass, and what its two counts were when the pass last stepped.
#[derive(Clone, Copy)]
pub(crate) struct Rest {
    pub(crate) lot: u32,
    changes: u64,
    everybody: u64,
}

// Whom to rouse once the turn is given back.
#[derive(Clone, Copy)]
pub(crate) enum Call {
    Nobody,
    Lots([u64; LOT_WORDS as usize]),
    Everybody,
}

impl Rest {
    pub(crate) fn new(lot: u32) -> Rest {
        Rest {
            lot,
            changes: 0,
            everybody: 0,
        }
    }
}

impl Call {
    // What the machine says after its step.
    pub(crate) fn of<M: Machine>(machine: &M) -> Call {
        match machine.rouses() {
            Roused::Nobody => Call::Nobody,
            Roused::Everybody => Call::Everybody,
            Roused::Lots => {
                let mut words = [0; LOT_WORDS as usize];
                for (number, word) in words.iter_mut().enumerate() {
                    *word = machine.roused(number as u32);
                }
                Call::Lots(words)
            }
        }
    }
}

impl Waiting {
    pub(crate) fn new(alloc: Global) -> Result<Waiting, NoMemory> {
        let mut lots = Vec::new(alloc);
        for _ in 0..LOTS {
            lots.push(Lot {
                changes: AtomicU64::new(0),
                sleepers: AtomicU64::new(0),
            })?;
        }
        Ok(Waiting {
            sleepers: AtomicU64::new(0),
            frees: AtomicU64::new(0),
            called: AtomicU64::new(0),
            everybody: AtomicU64::new(0),
            resting: AtomicU64::new(0),
            lots,
        })
    }

    // Parks until it is called, or not at all where the turn is free. A thread counts itself among the sleepers before it looks at
    // the turn, and the turn is free before its giver reads the count: so one sees the other. It takes back a call that it can't
    // have heard before it parks, so that who gives the turn back next calls again.
    pub(crate) fn await_turn<R: Wait, M: Machine>(&self, rt: &R, board: &Board<M>)
        requires { board.now.table_id.words ≡ 2 }
    {
        self.sleepers.fetch_add(1, SeqCst);
        let seen = (self.frees.load(SeqCst) % (1 << 32)) as u32;
        self.called.store(0, SeqCst);
        if board.peek(TURN) != 0 {
            self.frees
                .park_timeout(rt, seen, Duration::from_secs(LONGEST_REST_SECONDS));
        }
        self.sleepers.fetch_sub(1, SeqCst);
    }

    // Notes that a thread that had to look for the turn has it.
    pub(crate) fn turn_is_had(&self) {
        self.called.store(0, SeqCst);
    }

    // Calls one thread that parks for the turn, unless one that was called is still on its way: more would only find that the
    // turn is taken. Where none parks, it costs no system call.
    pub(crate) fn turn_is_free(&self) {
        if self.sleepers.load(SeqCst) != 0 && self.called.swap(1, SeqCst) == 0 {
            self.frees.fetch_add(1, SeqCst);
            self.frees.wake_one();
        }
    }

    // Notes how often the pass was roused so far.
    pub(crate) fn glance(&self, rest: &mut Rest) {
        if let Some(lot) = self.lots.get(rest.lot as usize) {
            rest.changes = lot.changes.load(SeqCst);
        }
        rest.everybody = self.everybody.load(SeqCst);
    }

    // Rests for so many milliseconds at most until the pass is roused, or not at all where it was since it last stepped. It counts itself before it
    // looks once more, and who rouses everybody counts up before it looks who rests: so one sees the other.
    pub(crate) fn rest<R: Wait>(&self, rt: &R, rest: &Rest, millis: u64) {
        let Some(lot) = self.lots.get(rest.lot as usize) else {
            return;
        };
        lot.sleepers.fetch_add(1, SeqCst);
        self.resting.fetch_add(1, SeqCst);
        if self.everybody.load(SeqCst) == rest.everybody {
            let seen = (rest.changes % (1 << 32)) as u32;
            let most = Duration::from_millis(millis.min(LONGEST_REST_SECONDS * 1000));
            lot.changes.park_timeout(rt, seen, most);
        }
        self.resting.fetch_sub(1, SeqCst);
        if rest.lot >= CREWS {
            lot.sleepers.fetch_sub(1, SeqCst);
        }
    }

    // Rouses those that the machine named.
    pub(crate) fn rouse(&self, call: &Call) {
        match call {
            Call::Nobody => {}
            Call::Lots(words) => {
                for (number, word) in words.iter().enumerate() {
                    self.rouse_word(number, *word);
                }
            }
            Call::Everybody => {
                self.everybody.fetch_add(1, SeqCst);
                if self.resting.load(SeqCst) != 0 {
                    self.rouse_everybody();
                }
            }
        }
    }

    fn rouse_word(&self, number: usize, word: u64) {
        if word == 0 {
            return;
        }
        for bit in 0..64 {
            if word >> bit & 1 == 1 {
                self.rouse_lot(number % LOT_WORDS as usize * 64 + bit);
            }
        }
    }

    // Wakes all passes of each lot, those of crews too.
    fn rouse_everybody(&self) {
        for lot in self.lots.as_slice() {
            if lot.sleepers.load(SeqCst) != 0 {
                lot.changes.fetch_add(1, SeqCst);
                lot.changes.wake_all();
            }
        }
    }

    // Wakes the passes of the lot, or one of them where it is a crew's. The lot is changed before its count is read, and a pass
    // counts itself before it looks whether the lot changed: so one sees the other.
    fn rouse_lot(&self, number: usize) {
        let Some(lot) = self.lots.get(number) else {
            return;
        };
        lot.changes.fetch_add(1, SeqCst);
        if number >= CREWS as usize {
            if lot.sleepers.load(SeqCst) != 0 {
                lot.changes.wake_one();
            }
        } else if lot.sleepers.swap(0, SeqCst) != 0 {
            lot.changes.wake_all();
        }
    }
}
