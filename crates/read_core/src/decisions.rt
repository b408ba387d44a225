ghost use Rattle.std.specs.Prelude.{◌≡◌, IfOk};
ghost use Rattle.std.specs.Option.{option_copied};
ghost use Rattle.read_model.specs.PlainRead.{called, held_turn, free_turn, read_turn};
ghost use Rattle.read_core.specs.Free.{under_if};

use crate::records::shown;
use etcd_types::{Header, NoMemory};
use known_asks::Stage;
use lease_table::{Entry, Phase};
use std::alloc::Global;
use wait_model::Sending;

/// What a plain read comes to.
#[derive(Debug, PartialEq, Eq, Drop)]
pub struct Decision {
    pub stage: Stage,
    /// The session under which its key is to be acquired, where it is.
    pub under: Option<u64>,
}

/// What a plain read comes to whose key has this entry, where `claimed` says that an acquire of it is due or out, and `under` is the
/// session under which it may be acquired. It takes memory for the record that it shows.
pub fn decide(
    alloc: Global,
    header: Header,
    step: u64,
    entry: Option<&Entry>,
    claimed: bool,
    under: Option<u64>,
) -> Result<Decision, NoMemory>
    ensures stage { IfOk result (λ d. d.stage ≡ (read_turn header step (option_copied entry.entry) claimed under).stage) }
    ensures under { IfOk result (λ d. d.under ≡ (read_turn header step (option_copied entry.entry) claimed under).under) }
{
    match entry {
        Some(entry) => Ok(Decision {
            stage: held_turn(alloc, header, step, entry)?,
            under: None,
        }),
        None if claimed => Ok(Decision {
            stage: Stage::Joined,
            under: None,
        }),
        None => Ok(free_turn(step, under)),
    }
}

/// The stage of a plain read whose key has this entry.
fn held_turn(alloc: Global, header: Header, step: u64, entry: &Entry) -> Result<Stage, NoMemory>
    ensures { IfOk result (λ stage. stage ≡ held_turn header step entry.now.kv entry.now.phase) }
{
    match entry.phase {
        Phase::Held => Ok(shown(alloc, header, entry.kv.as_ref())?),
        Phase::Writing { .. } => Ok(Stage::Behind),
        Phase::Leaving { .. } => Ok(called(step)),
    }
}

fn free_turn(step: u64, under: Option<u64>) -> Decision
    ensures stage { result.stage ≡ (free_turn step under).stage }
    ensures under { result.under ≡ (free_turn step under).under }
{
    match under {
        Some(_) => Decision {
            stage: Stage::Acquiring,
            under,
        },
        None => Decision {
            stage: called(step),
            under,
        },
    }
}

/// A call of its own, due since this step.
pub(crate) fn called(step: u64) -> Stage
    ensures { result ≡ called step }
{
    Stage::Calling(Sending::Due { since: step })
}

/// What is known of a key without entry and acquire.
#[derive(Clone, Copy, Debug, PartialEq, Eq)]
pub struct Unowned {
    /// Keys such as it are owned at all.
    pub ownable: bool,
    /// A write is over it.
    pub written: bool,
    /// The leasing stream is created.
    pub created: bool,
    /// Its quiet moment has passed.
    pub rested: bool,
}

/// The session under which a key without entry and acquire may be acquired.
pub fn under(session: Option<u64>, key: Unowned) -> Option<u64>
    ensures { result ≡ under_if session key.ownable key.written key.created key.rested }
{
    if !key.written && key.ownable && key.created && key.rested {
        session
    } else {
        None
    }
}
