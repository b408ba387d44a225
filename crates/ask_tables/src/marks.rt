ghost use Rattle.std.specs.Prelude.{◌≡◌, true, if◌then◌else◌, Some, None};
ghost use Rattle.std.specs.Option.{option_copied};
ghost use Rattle.ask_tables.specs.Marks.{stage_rank, call_rank, group_rank, stage_number, sending_number, mark_of, is_alike, is_narrow};

use mark_rows::Mark;
use read_model::{Asked, Stage};
use wait_model::Sending;

/// The mark that the request is found by.
pub(crate) fn mark_of(ask: &Asked) -> Mark
    ensures mark { result ≡ mark_of ask.now }
    ensures narrow { is_narrow ask.now ≡ true }
{
    Mark::new(stage_rank(&ask.stage), stage_number(&ask.stage), ask.ticket)
}

/// Whether the request has this rank and this number.
fn is_alike(ask: &Asked, rank: u64, number: u64) -> bool
    ensures { result ≡ is_alike rank number ask.now }
{
    stage_rank(&ask.stage) == rank && stage_number(&ask.stage) == number
}

/// The request, where it has this rank and this number.
pub fn only_alike(ask: &Asked, rank: u64, number: u64) -> Option<&Asked>
    ensures { option_copied result ≡ (if is_alike rank number ask.now then Some ask.now else None) }
{
    if is_alike(ask, rank, number) {
        Some(ask)
    } else {
        None
    }
}

/// Reads that wait at a key come first, then writes, keepalives that wait for the next call or for one that is out, those that have
/// their reply, calls that are out, and what is due.
fn stage_rank(stage: &Stage) -> u64
    ensures { result ≡ stage_rank stage.now }
{
    match stage {
        Stage::Acquiring | Stage::Joined | Stage::Behind => WAITING,
        Stage::Writes => WRITING,
        Stage::Grouped(None) => UNGROUPED,
        Stage::Grouped(Some(sending)) => group_rank(*sending),
        Stage::Replied(_) => REPLIED,
        Stage::Calling(sending) => call_rank(*sending),
    }
}

fn group_rank(sending: Sending) -> u64
    ensures { result ≡ group_rank sending }
{
    match sending {
        Sending::Out { .. } => GROUP_OUT,
        Sending::Due { .. } => DUE,
    }
}

fn call_rank(sending: Sending) -> u64
    ensures { result ≡ call_rank sending }
{
    match sending {
        Sending::Out { .. } => CALL_OUT,
        Sending::Due { .. } => DUE,
    }
}

/// Of reads that wait at a key.
pub const WAITING: u64 = 0;

/// Of writes.
const WRITING: u64 = 1;

/// Of keepalives that wait for the next call of their group.
const UNGROUPED: u64 = 2;

/// Of keepalives whose group's call is out.
pub const GROUP_OUT: u64 = 3;

/// Of requests with a reply.
pub const REPLIED: u64 = 4;

/// Of those whose own call is out.
pub const CALL_OUT: u64 = 5;

/// Of those that are due.
pub const DUE: u64 = 6;

/// The call that is out, or the step since which one is due.
fn stage_number(stage: &Stage) -> u64
    ensures { result ≡ stage_number stage.now }
{
    match stage {
        Stage::Calling(sending) | Stage::Grouped(Some(sending)) => sending_number(*sending),
        _ => 0,
    }
}

fn sending_number(sending: Sending) -> u64
    ensures { result ≡ sending_number sending }
{
    match sending {
        Sending::Out { call } => call,
        Sending::Due { since } => since,
    }
}
