ghost use Rattle.std.specs.Prelude.{◌≡◌, ◌==◌, ◌+◌, ◌≤◌, ◌∷◌, ◌++◌, [], true, ℕ, List as Values, length, IfOk};
ghost use Rattle.audit_model.specs.Audited.{is_open as is_still_open};
ghost use Rattle.audit_model.specs.Summaries.{summary as summary_of};
ghost use Rattle.audit_text.specs.Standing as audit;
ghost use Rattle.replay_model.specs.Script.{line_feed};
ghost use Rattle.replay_model.specs.declared.limits.TheConstants.{MOST_BYTES};
ghost use Rattle.script_text.specs.declared.item.Item.{Item as Told};

use crate::lines::Lines;
use audit_model::{AuditEnding, Summary};
use etcd_types::NoMemory;
use std::alloc::Global;

/// A transcript as far as its bytes were taken: its lines, and the line that has begun.
#[derive(Drop)]
pub(crate) struct Reading {
    lines: Lines,
    line: Vec<u8>,
}

/// Whether no line was refused so far.
pub(crate) fn is_open(ending: &AuditEnding) -> bool
    ensures { result ≡ is_still_open ending.now }
{
    match ending {
        AuditEnding::Open => true,
        _ => false,
    }
}

fn is_feed(byte: u8) -> bool
    ensures { result ≡ (byte == line_feed) }
{
    byte == b'\n'
}

impl Reading {
    ghost use Rattle.audit_input.specs.Reading.{Follows, TakesEnd, TakesSo, taken_of};

    pub(crate) fn new(alloc: Global) -> Reading
        ensures { Follows result [] }
    {
        Reading {
            lines: Lines::new(alloc),
            line: Vec::new(alloc),
        }
    }

    /// What is reported of the items that it has taken. It takes no memory.
    pub(crate) fn finish(self) -> Summary
        ensures { (items : Values Told) → audit.Stands self.lines.audit items → result ≡ summary_of items }
    {
        self.lines.finish()
    }

    /// Takes a byte: a line feed ends the line that has begun, and another byte goes onto it. Where the line is refused, nothing is
    /// taken behind it.
    fn take_byte(&mut self, byte: u8) -> Result<AuditEnding, NoMemory>
        ensures taken { (bytes : Values ℕ) → Follows self.old bytes → IfOk result (TakesSo self.new (bytes ++ byte ∷ [])) }
        ensures count { IfOk result (λ ending. is_still_open ending ≡ true → taken_of self.new ≡ taken_of self.old + 1) }
        ensures few { IfOk result (λ ending. is_still_open ending ≡ true → taken_of self.new ≤ MOST_BYTES) }
    {
        if is_feed(byte) {
            let ending = self.lines.take_line(self.line.as_slice(), true)?;
            self.line.clear();
            return Ok(ending);
        }
        self.line.push(byte)?;
        if self.lines.is_past_limit(self.line.as_slice()) {
            return Ok(AuditEnding::PastLimit);
        }
        Ok(AuditEnding::Open)
    }

    /// Takes a piece of the transcript, up to the first line that is refused.
    pub(crate) fn feed(&mut self, piece: &[u8]) -> Result<AuditEnding, NoMemory>
        ensures taken { (bytes : Values ℕ) → Follows self.old bytes → IfOk result (TakesSo self.new (bytes ++ piece.now)) }
        ensures count { IfOk result (λ ending. is_still_open ending ≡ true → taken_of self.new ≡ taken_of self.old + length piece.now) }
        ensures few { IfOk result (λ ending. is_still_open ending ≡ true → 1 ≤ length piece.now → taken_of self.new ≤ MOST_BYTES) }
    {
        for (at, byte) in piece.iter().enumerate() {
            let ending = self.take_byte(*byte)?;
            if !is_open(&ending) {
                return Ok(ending);
            }
        }
        Ok(AuditEnding::Open)
    }

    /// Takes the end of the input: a last line without line feed is a line, too.
    pub(crate) fn take_end(&mut self) -> Result<AuditEnding, NoMemory>
        ensures { (bytes : Values ℕ) → Follows self.old bytes → IfOk result (TakesEnd self.new bytes) }
    {
        if self.line.is_empty() {
            return Ok(AuditEnding::Open);
        }
        Ok(self.lines.take_line(self.line.as_slice(), false)?)
    }
}
