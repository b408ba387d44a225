ghost use Rattle.std.specs.Prelude.{◌≡◌, ◌<◌, length, IfSome, IfNone, None, OnSome};
ghost use Rattle.wait_model.specs.Writes.{first_by, without_first, sends, asks, is_out_as, job_of, without_call, stage_sends, stage_asks};
ghost use Rattle.std.specs.List.{list_any};
ghost use Rattle.wait_model.specs.Writes.{is_asked_as};
ghost use Rattle.revoke_core.specs.Steps.{passes, IsFirst, IsCall};

use wait_model::{Found, Sending, WaitCall, WaitJob, Write, WriteStage, is_asked_as};

/// How a write is looked for.
#[derive(Clone, Copy)]
pub(crate) enum By {
    /// By its ticket.
    Ticket(u64),
    /// By the number of its own call.
    Sends(u64),
    /// By the number of a revoke call for it.
    Asks(u64),
}

/// The first write that is looked for, which is taken out.
pub(crate) fn take_write(writes: &mut Vec<Write>, by: By) -> Option<Write>
    ensures taken { result ≡ first_by (passes by) writes.old.items }
    ensures left { writes.new.items ≡ without_first (passes by) writes.old.items }
{
    match place_of(writes, by) {
        Some(at) => Some(writes.remove(at)),
        None => None,
    }
}

/// Where the first write is that is looked for.
pub(crate) fn place_of(writes: &[Write], by: By) -> Option<usize>
    ensures found { IfSome result (IsFirst (passes by) writes.now) }
    ensures in_range { IfSome result (λ at. at < length writes.now) }
    ensures none { IfNone result (first_by (passes by) writes.now ≡ None) }
{
    for at in 0..writes.len() {
        if passes(&writes[at], by) {
            return Some(at);
        }
    }
    None
}

fn passes(write: &Write, by: By) -> bool
    ensures { result ≡ passes by write.now }
{
    match by {
        By::Ticket(ticket) => write.ticket == ticket,
        By::Sends(call) => sends(&write.stage, call),
        By::Asks(call) => asks(&write.stage, call),
    }
}

fn sends(stage: &WriteStage, call: u64) -> bool
    ensures { result ≡ stage_sends call stage.now }
{
    match stage {
        WriteStage::Sends { sending, .. } => is_out_as(*sending, call),
        WriteStage::Waiting | WriteStage::Finds { .. } => false,
    }
}

fn is_out_as(sending: Sending, call: u64) -> bool
    ensures { result ≡ is_out_as call sending }
{
    match sending {
        Sending::Out { call: number } => number == call,
        Sending::Due { .. } => false,
    }
}

fn asks(stage: &WriteStage, call: u64) -> bool
    ensures { result ≡ stage_asks call stage.now }
{
    match stage {
        WriteStage::Finds { found } => asks_one(found.as_slice(), call),
        WriteStage::Waiting | WriteStage::Sends { .. } => false,
    }
}

fn asks_one(found: &[Found], call: u64) -> bool
    ensures { result ≡ list_any (is_asked_as call) found.now }
{
    found.iter().any(|one| is_asked_as(one, call))
}

/// What the call of this number is about, which is out no more.
pub(crate) fn take_job(out: &mut Vec<WaitCall>, call: u64) -> Option<WaitJob>
    ensures taken { result ≡ job_of call out.old.items }
    ensures left { out.new.items ≡ without_call call out.old.items }
{
    match place_of_call(out, call) {
        Some(at) => Some(out.remove(at).job),
        None => None,
    }
}

pub(crate) fn place_of_call(out: &[WaitCall], call: u64) -> Option<usize>
    ensures found { IfSome result (IsCall call out.now) }
    ensures in_range { IfSome result (λ at. at < length out.now) }
    ensures none { IfNone result (job_of call out.now ≡ None) }
{
    for at in 0..out.len() {
        if out[at].call == call {
            return Some(at);
        }
    }
    None
}
