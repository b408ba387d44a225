ghost use Rattle.std.specs.Prelude.{◌≡◌, ◌<◌, ◌≤◌, ℕ, List as Values, length, Option, None, Ok, IfOk, IfErr};
ghost use Rattle.audit_input.specs.Audits.{Audits, IsKeptTranscript, Stops, most_at_once};
ghost use Rattle.audit_model.specs.declared.ending.AuditEnding.TheVariants.{Open};
ghost use Rattle.audit_input.specs.Reading.{Has, Turns, taken_of};
ghost use Rattle.outside.specs.Faults.{Rose};
ghost use Rattle.replay_model.specs.declared.limits.TheConstants.{MOST_BYTES};

use crate::reading::{Reading, is_open};
use crate::stop::AuditStop;
use audit_model::{AuditEnding, Summary};
use outside::{Failed, Source};
use std::alloc::Global;

/// How many bytes are read at once.
const ROOM: usize = 65536;

/// Appends a piece to what is kept. Where memory is wanting for it, nothing is kept any more.
fn keep(text: &mut Option<Vec<u8>>, piece: &[u8]) {
    let is_whole = match text {
        Some(text) => text.extend_from_slice(piece).is_ok(),
        None => true,
    };
    if !is_whole {
        *text = None;
    }
}

/// Reads a piece, keeps it, and takes it. An ending comes at the end of the input, or with a line that is refused.
fn turn<S: Source>(
    reading: &mut Reading,
    room: &mut [u8],
    input: &mut S,
    text: &mut Option<Vec<u8>>,
) -> Result<Option<AuditEnding>, AuditStop>
    requires room { 0 < length room.old }
    requires small { length room.old ≤ most_at_once }
    ensures turned { (left : Option (Values ℕ)) (read : Values ℕ) → Has left (S.left input.old) reading.old read → Turns left (S.left input.new) reading.new result }
    ensures count { result ≡ Ok None → taken_of reading.old < taken_of reading.new }
    ensures few { result ≡ Ok None → taken_of reading.new ≤ MOST_BYTES }
    ensures kept { S.faults input.old ≤ S.faults input.new }
    ensures cause { IfErr result (λ stop. stop ≡ AuditStop.ReadFault → Rose (S.faults input.old) (S.faults input.new)) }
{
    let count = match input.read(room) {
        Ok(count) => count,
        Err(Failed) => return Err(AuditStop::ReadFault),
    };
    if count == 0 {
        return Ok(Some(reading.take_end()?));
    }
    keep(text, &room[..count]);
    let ending = reading.feed(&room[..count])?;
    if is_open(&ending) {
        Ok(None)
    } else {
        Ok(Some(ending))
    }
}

/// Audits the transcript that `input` gives, and appends what it reads to `text`, where there is one. It answers as `audit_source`.
///
/// Where memory is wanting for `text` alone, the audit goes on, and none is left.
pub fn audit_kept<S: Source>(
    alloc: Global,
    input: &mut S,
    text: &mut Option<Vec<u8>>,
) -> Result<(AuditEnding, Summary), AuditStop>
    ensures ended { IfOk result (λ told. Audits (S.left input.old) (S.left input.new) told.0 told.1) }
    ensures complete { IsKeptTranscript (S.left input.old) → IfOk result (λ told. told.0 ≡ Open) }
    ensures stopped { IfErr result (Stops (S.left input.old) (S.left input.new)) }
    ensures cause { IfErr result (λ stop. stop ≡ AuditStop.ReadFault → Rose (S.faults input.old) (S.faults input.new)) }
{
    let mut room = Vec::from_elem(alloc, 0u8, ROOM)?;
    let mut reading = Reading::new(alloc);
    'turns: loop {
        match turn(&mut reading, room.as_mut_slice(), input, text)? {
            Some(ending) => return Ok((ending, reading.finish())),
            None => {}
        }
    }
}

/// Audits the transcript that `input` gives.
///
/// It answers how the audit ended, with the counts of the items that keep the rules: `Open` where no line is refused, `Refused` at the
/// first line that isn't the text of an item or whose item breaks a rule, `PastLimit` where that line passes a limit. `ReadFault` comes
/// where the input failed, `NoMemory` where memory was wanting.
pub fn audit_source<S: Source>(
    alloc: Global,
    input: &mut S,
) -> Result<(AuditEnding, Summary), AuditStop>
    ensures ended { IfOk result (λ told. Audits (S.left input.old) (S.left input.new) told.0 told.1) }
    ensures complete { IsKeptTranscript (S.left input.old) → IfOk result (λ told. told.0 ≡ Open) }
    ensures stopped { IfErr result (Stops (S.left input.old) (S.left input.new)) }
    ensures cause { IfErr result (λ stop. stop ≡ AuditStop.ReadFault → Rose (S.faults input.old) (S.faults input.new)) }
{
    audit_kept(alloc, input, &mut None)
}
