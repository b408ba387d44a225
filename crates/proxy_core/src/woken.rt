// Whom a step gave something to take. No clause speaks of it: waking too many costs time, and who is not woken rests on until a later
// step wakes it, or for ten seconds.
ghost use Rattle.std.specs.Prelude.{◌≡◌, ◌-◌, ◌/◌, ◌%◌, ◌^◌};
ghost use Rattle.outside.specs.declared.machine.TheConstants.{CREWS};

use crate::work::has_due;
use core_machine::Machine;
use core_model::{CoreEvent, Outcome, StepFault};
use etcd_types::Request;
use outside::{CREWS, LOT_WORDS, Roused};

/// The crew in which workers rest: any of them can take what is due.
pub const WORKERS: u32 = 0;

/// Where more replies stand than this, or a stream has more members, everybody is woken.
const MOST: u32 = 1_024;

/// The lot in which a connection rests that has this ticket. A connection's tickets share their lot, since each range of 2^32 tickets
/// is one connection's.
pub fn lot_of_ticket(ticket: u64) -> u32
    ensures { result ≡ (ticket - 1) / 2 ^ 32 % CREWS }
{
    ((ticket.saturating_sub(1) >> 32) % u64::from(CREWS)) as u32
}

/// Whose watches an event may give something to take, by what stands before its step: a watch that is asked may join a stream that
/// stands created, and has its first message then; of what a stream brings only its members are told. A stream that breaks off
/// tells them nothing.
pub(crate) fn told_by(machine: &Machine, event: &CoreEvent) -> Woken {
    let mut woken = Woken::nobody();
    match event {
        CoreEvent::Ask {
            ticket,
            request: Request::Watch(_),
            ..
        } => {
            woken.add(lot_of_ticket(*ticket));
            woken
        }
        CoreEvent::Item { stream, .. } => add_members(machine, *stream, woken),
        _ => woken,
    }
}

/// The members of a stream too.
fn add_members(machine: &Machine, stream: u64, woken: Woken) -> Woken {
    let mut woken = woken;
    let mut from = 0;
    for _ in 0..MOST {
        let Some(ticket) = machine.watches.member_from(stream, from) else {
            return woken;
        };
        woken.add(lot_of_ticket(ticket));
        from = ticket.saturating_add(1);
    }
    Woken {
        due: woken.due,
        ..Woken::everybody()
    }
}

/// Whom a step woke.
#[derive(Clone, Copy, Debug)]
pub(crate) struct Woken {
    roused: Roused,
    /// A bit for each lot.
    lots: [u64; LOT_WORDS as usize],
    /// Whether a job was due when it was last looked.
    due: bool,
}

impl Woken {
    pub(crate) fn nobody() -> Woken {
        Woken {
            roused: Roused::Nobody,
            lots: [0; LOT_WORDS as usize],
            due: false,
        }
    }

    pub(crate) fn everybody() -> Woken {
        Woken {
            roused: Roused::Everybody,
            lots: [0; LOT_WORDS as usize],
            due: false,
        }
    }

    pub(crate) fn is_due(&self) -> bool {
        self.due
    }

    pub(crate) fn roused(&self) -> Roused {
        self.roused
    }

    pub(crate) fn word(&self, word: u32) -> u64 {
        self.lots.get(word as usize).copied().unwrap_or(0)
    }

    fn add(&mut self, lot: u32) {
        if let Some(word) = self.lots.get_mut((lot / 64) as usize) {
            *word |= 1u64.wrapping_shl(lot);
            self.roused = Roused::Lots;
        }
    }
}

/// Who takes by this event.
pub(crate) fn taker_of(event: &CoreEvent) -> Option<u64> {
    match event {
        CoreEvent::Take { ticket } => Some(*ticket),
        _ => None,
    }
}

/// Whom a step woke that had this answer, by what stands behind it, where its event told something to these watches. A reply that
/// was given at once woke nobody. Who took a message and has more is woken too, so that it may rest behind each without a look.
pub(crate) fn woken_by(
    machine: &Machine,
    was_due: bool,
    told: Woken,
    taker: Option<u64>,
    answer: &Result<Outcome, StepFault>,
) -> Woken {
    if matches!(answer, Ok(Outcome::Replied(_))) {
        return Woken {
            due: was_due,
            ..Woken::nobody()
        };
    }
    let mut woken = told;
    woken.due = has_due(machine);
    if matches!(woken.roused, Roused::Everybody) {
        return woken;
    }
    if let (Some(ticket), Ok(Outcome::Item(_))) = (taker, answer) {
        if machine.watches.has_message(ticket) {
            woken.add(lot_of_ticket(ticket));
        }
    }
    if woken.due && wants_worker(was_due, answer) {
        woken.add(CREWS + WORKERS);
    }
    if may_reply(answer) {
        add_replied(machine, woken)
    } else {
        woken
    }
}

/// Whether a worker is woken where a job is due behind a step: where none was due before, a worker took the one that was and there is
/// another, or a step came to nothing. Else one was woken when the first of them came, and wakes another when it takes it.
fn wants_worker(was_due: bool, answer: &Result<Outcome, StepFault>) -> bool {
    !was_due || matches!(answer, Ok(Outcome::Job(_)) | Err(_))
}

/// Whether a step may have given a reply that isn't seen by whom it is for. Asking and drawing a job give others none but where
/// their time is over, which they see by themselves.
fn may_reply(answer: &Result<Outcome, StepFault>) -> bool {
    !matches!(answer, Ok(Outcome::Waiting | Outcome::Job(Some(_))))
}

/// Those too whose reply stands.
fn add_replied(machine: &Machine, woken: Woken) -> Woken {
    let mut woken = woken;
    let mut from = 0;
    for _ in 0..MOST {
        let Some(ticket) = machine.reads.asks().ready_from(from) else {
            return woken;
        };
        woken.add(lot_of_ticket(ticket));
        from = ticket.saturating_add(1);
    }
    Woken {
        due: woken.due,
        ..Woken::everybody()
    }
}
