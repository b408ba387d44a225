//! What a pass left of the writes, known until one of them changes: so a step that is about none of them does no pass.

ghost use Rattle.std.specs.Prelude.{◌≡◌, ◌<◌, [], None, Some, length};
ghost use Rattle.wait_model.specs.DueOrder.{first_place};
ghost use Rattle.revoke_core.specs.Rests.{all_rest, rests, is_at_rest, known_rest, IsLeft};

use crate::passes::shares_any;
use crate::turns::{is_found_over, is_waiting};
use revoke_calls::first_place;
use wait_model::{Place, Write};

/// What was found of the writes.
#[derive(Clone, Copy, Debug)]
pub(crate) struct Left {
    /// Whether a pass over them changes nothing.
    pub rest: bool,
    /// Where their first due call stands among all due jobs.
    pub first: Option<Place>,
}

/// What is so of these writes.
pub(crate) fn left_of(writes: &[Write]) -> Left
    ensures { IsLeft result writes.now }
{
    Left {
        rest: all_rest(writes),
        first: first_place(writes),
    }
}

/// Whether a pass over the writes is known to change nothing.
pub(crate) fn known_rest(left: &Option<Left>) -> bool
    ensures { result ≡ known_rest left.now }
{
    match left {
        Some(left) => left.rest,
        None => false,
    }
}

fn all_rest(writes: &[Write]) -> bool
    ensures { result ≡ all_rest [] writes.now }
{
    for at in 0..writes.len() {
        if !is_at_rest(writes, at) {
            return false;
        }
    }
    true
}

fn is_at_rest(writes: &[Write], at: usize) -> bool
    requires { at < length writes.now }
    ensures { result ≡ is_at_rest writes.now at }
{
    rests(&writes[at], &writes[..at])
}

/// Whether the write rests behind these earlier ones.
fn rests(write: &Write, earlier: &[Write]) -> bool
    ensures { result ≡ rests earlier.now write.now }
{
    !is_found_over(&write.stage) && (!is_waiting(&write.stage) || shares_any(write, earlier))
}
