ghost use Rattle.std.specs.Prelude.{◌≡◌};
ghost use Rattle.proxy_model.specs.LeaseTable.{phase_after_write, phase_given_up, phase_left};
ghost use Rattle.wait_model.specs.Phases.{is_rescind_due, phase_sent};
ghost use Rattle.lease_table.specs.Turns.{turned, is_write, is_open, is_quiet};

use etcd_types::Kv;
use proxy_model::{Entry, Phase};
use slot_rows::Change;

/// What happens to an entry.
#[derive(Debug, Drop)]
pub(crate) enum Turn {
    /// It comes into this phase.
    To(Phase),
    /// Its owner write was done, and left this record.
    Wrote(Option<Kv>),
    /// Its owner write wasn't done.
    Unwritten,
    /// It is given up now.
    Left,
    /// It is given up, where it is being written once that is over.
    GivenUp,
    /// Its rescind was sent.
    RescindSent,
    /// The rescind of the ownership key of this create revision was lost.
    RescindLost(u64),
}

impl Change<Entry> for Turn {
    ghost changed = { turned };

    fn apply(self, entry: &mut Entry) {
        take_turn(entry, self);
    }
}

/// The entry takes this turn.
fn take_turn(entry: &mut Entry, turn: Turn)
    ensures { entry.new ≡ turned turn entry.old }
{
    match turn {
        Turn::To(phase) => entry.phase = phase,
        Turn::Wrote(kv) => {
            entry.kv = kv;
            entry.phase = phase_after_write(entry.phase);
        }
        Turn::Unwritten => entry.phase = phase_after_write(entry.phase),
        Turn::Left => entry.phase = phase_left(entry.phase),
        Turn::GivenUp => entry.phase = phase_given_up(entry.phase),
        Turn::RescindSent => entry.phase = phase_sent(entry.phase, true),
        Turn::RescindLost(create) => {
            if entry.create == create {
                entry.phase = phase_sent(entry.phase, false);
            }
        }
    }
}

fn phase_after_write(phase: Phase) -> Phase
    ensures { result ≡ phase_after_write phase }
{
    match phase {
        Phase::Writing { revoked: false } => Phase::Held,
        Phase::Writing { revoked: true } => Phase::Leaving { sent: false },
        Phase::Held | Phase::Leaving { .. } => phase,
    }
}

fn phase_left(phase: Phase) -> Phase
    ensures { result ≡ phase_left phase }
{
    match phase {
        Phase::Held | Phase::Writing { .. } => Phase::Leaving { sent: false },
        Phase::Leaving { .. } => phase,
    }
}

fn phase_given_up(phase: Phase) -> Phase
    ensures { result ≡ phase_given_up phase }
{
    match phase {
        Phase::Held => Phase::Leaving { sent: false },
        Phase::Writing { .. } => Phase::Writing { revoked: true },
        Phase::Leaving { .. } => phase,
    }
}

/// The phase where its rescind was sent or wasn't.
fn phase_sent(phase: Phase, sent: bool) -> Phase
    ensures { result ≡ phase_sent sent phase }
{
    match phase {
        Phase::Leaving { .. } => Phase::Leaving { sent },
        Phase::Held | Phase::Writing { .. } => phase,
    }
}

/// Whether no rescind of the entry is to be sent before or after this turn: where it is open, and the turn is a write's.
pub(crate) fn is_quiet(entry: &Entry, turn: &Turn) -> bool
    ensures { result ≡ is_quiet turn.now entry.now }
{
    is_open(entry.phase) && is_write(turn)
}

/// Whether a key is held, or being written and not given up.
fn is_open(phase: Phase) -> bool
    ensures { result ≡ is_open phase }
{
    match phase {
        Phase::Held => true,
        Phase::Writing { revoked } => !revoked,
        Phase::Leaving { .. } => false,
    }
}

/// Whether the turn is a write's beginning or end.
fn is_write(turn: &Turn) -> bool
    ensures { result ≡ is_write turn.now }
{
    matches!(
        turn,
        Turn::To(Phase::Writing { .. }) | Turn::Wrote(_) | Turn::Unwritten
    )
}

/// Whether it leaves, and its rescind is to be sent.
pub(crate) fn is_rescind_due(entry: &Entry) -> bool
    ensures { result ≡ is_rescind_due entry.now }
{
    matches!(entry.phase, Phase::Leaving { sent: false })
}
