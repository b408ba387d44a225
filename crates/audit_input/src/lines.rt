ghost use Rattle.std.specs.Prelude.{◌≡◌, ◌+◌, ◌≤◌, [], true, List as Values, length, IfOk};
ghost use Rattle.audit_model.specs.Audited.{Audited, after_line, beginning, is_open as is_still_open};
ghost use Rattle.audit_model.specs.Summaries.{summary as summary_of};
ghost use Rattle.audit_text.specs.Standing as audit;
ghost use Rattle.replay_model.specs.Progress.{is_past, size_of};
ghost use Rattle.replay_model.specs.declared.limits.TheConstants.{MOST_LINES, MOST_BYTES};
ghost use Rattle.script_text.specs.Items.{item_at};
ghost use Rattle.script_text.specs.declared.item.Item.{Item as Told};

use crate::refused::NotTaken;
use audit_model::{AuditEnding, AuditFault, AuditRefusal, Summary};
use audit_text::Audit;
use etcd_types::NoMemory;
use replay_model::{MOST_BYTES, MOST_LINE_BYTES, MOST_LINES};
use script_text::{LineFault, read_item};
use std::alloc::Global;

/// A transcript as far as its lines were taken: the audit of their items, how many they are, and their bytes.
#[derive(Drop)]
pub(crate) struct Lines {
    alloc: Global,
    audit: Audit,
    lines: u64,
    bytes: u64,
    ghost few_lines: { lines ≤ MOST_LINES },
    ghost few_bytes: { bytes ≤ MOST_BYTES },
}

impl Lines {
    ghost use Rattle.audit_input.specs.Lines.{Adds, Gives, Stands};
    ghost use Rattle.audit_input.specs.Refused.{passes_limit};

    pub(crate) fn new(alloc: Global) -> Lines
        ensures { Stands result beginning }
    {
        Lines {
            alloc,
            audit: Audit::new(alloc),
            lines: 0,
            bytes: 0,
        }
    }

    /// What is reported of the items that it has taken. It takes no memory.
    pub(crate) fn finish(self) -> Summary
        ensures { (items : Values Told) → audit.Stands self.audit items → result ≡ summary_of items }
    {
        self.audit.finish()
    }

    /// Whether the next line passes a limit: it has `length` bytes, and `size` with its line feed where it has one.
    fn is_past(&self, length: u64, size: u64) -> bool
        ensures { result ≡ is_past self.now.lines self.now.bytes length size }
    {
        length > MOST_LINE_BYTES || self.lines + 1 > MOST_LINES || size > MOST_BYTES - self.bytes
    }

    /// Whether a line that has begun with these bytes passes a limit already.
    pub(crate) fn is_past_limit(&self, begun: &[u8]) -> bool
        ensures passes { (a : Audited) → Stands self.now a → result ≡ passes_limit a (length begun.now) (length begun.now) }
        ensures past { result ≡ is_past self.now.lines self.now.bytes (length begun.now) (length begun.now) }
    {
        self.is_past(begun.len() as u64, begun.len() as u64)
    }

    /// Takes a line, which a line feed ended or not.
    pub(crate) fn take_line(&mut self, line: &[u8], feed: bool) -> Result<AuditEnding, NoMemory>
        ensures line { (a : Audited) → Stands self.old a → IfOk result (λ ending. Adds self.new ending (after_line a line.now feed)) }
        ensures bytes { IfOk result (λ ending. is_still_open ending ≡ true → self.new.bytes ≡ self.old.bytes + size_of line.now feed) }
    {
        let number = self.lines + 1;
        let size = size_of(line, feed);
        if self.is_past(line.len() as u64, size) {
            return Ok(AuditEnding::PastLimit);
        }
        match self.gain(line) {
            Ok(()) => {
                self.lines = number;
                self.bytes += size;
                Ok(AuditEnding::Open)
            }
            Err(NotTaken::Refused(refusal)) => Ok(AuditEnding::Refused { number, refusal }),
            Err(NotTaken::NoMemory) => Err(NoMemory),
        }
    }

    /// Reads the item of a line, and takes it.
    fn gain(&mut self, line: &[u8]) -> Result<(), NotTaken>
        ensures gained { (items : Values Told) → audit.Stands self.old.audit items → Gives self.new.audit result items (item_at line.now) }
        ensures lines { self.new.lines ≡ self.old.lines }
        ensures bytes { self.new.bytes ≡ self.old.bytes }
    {
        let item = match read_item(self.alloc, line) {
            Ok(item) => item,
            Err(LineFault::BadLine { place, .. }) => {
                return Err(NotTaken::Refused(AuditRefusal::BadLine { place }));
            }
            Err(LineFault::NoMemory) => return Err(NotTaken::NoMemory),
        };
        match self.audit.item(item) {
            Ok(()) => Ok(()),
            Err(AuditFault::NoMemory) => Err(NotTaken::NoMemory),
            Err(fault) => Err(NotTaken::Refused(AuditRefusal::Breaks(fault))),
        }
    }
}

/// The bytes of a line, with its line feed where it has one.
fn size_of(line: &[u8], feed: bool) -> u64
    ensures { result ≡ size_of line.now feed }
{
    line.len() as u64 + u64::from(feed)
}
