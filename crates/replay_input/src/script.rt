ghost use Rattle.std.specs.Prelude.{◌≡◌, ◌+◌, ◌≤◌, true, ◌++◌, OnOk, IfOk, Option, length, string_bytes};
ghost use Rattle.replay_model.specs.declared.limits.TheConstants.{MOST_LINES, MOST_BYTES};
ghost use Rattle.replay_model.specs.Transcript.{transcript_text};
ghost use Rattle.replay_model.specs.Endings.{is_open};
ghost use Rattle.replay_model.specs.Progress.{size_of};

use crate::lines::{begin, later};
use crate::refused::NotTaken;
use core_face::ProxyCore;
use etcd_types::{List, NoMemory};
use replay_model::{Ending, MOST_BYTES, MOST_LINE_BYTES, MOST_LINES};
use replay_world::World;
use script_text::{Item, LineFault, append_item, read_line};
use std::alloc::Global;
use world_model::LineRefusal;

/// A script as far as its lines were taken: the world that they left, how many they are, and their bytes.
#[derive(Drop)]
pub(crate) struct Script<C: ProxyCore> {
    alloc: Global,
    world: Option<World<C>>,
    lines: u64,
    bytes: u64,
    ghost few_lines: { lines ≤ MOST_LINES },
    ghost few_bytes: { bytes ≤ MOST_BYTES },
}

impl<C: ProxyCore> Script<C> {
    ghost use Rattle.std.specs.Prelude.{ℕ, Result};
    ghost use Rattle.script_text.specs.Lines.{line_at};
    ghost use Rattle.world_model.specs.State.{World as Model};
    ghost use Rattle.replay_model.specs.Progress.{Progress, beginning, is_past, passes_limit, after_line};
    ghost use Rattle.replay_input.specs.Script.{Stands, StandsIfThere, Gives, Adds, IsReady};

    pub(crate) fn new(alloc: Global) -> Script<C>
        ensures stands { Stands result beginning }
        ensures ready { IsReady result }
    {
        Script {
            alloc,
            world: None,
            lines: 0,
            bytes: 0,
        }
    }

    /// Whether the next line passes a limit: it has `length` bytes, and `size` with its line feed where it has one.
    fn is_past(&self, length: u64, size: u64) -> bool
        ensures { result ≡ is_past self.now.lines self.now.bytes length size }
    {
        length > MOST_LINE_BYTES || self.lines + 1 > MOST_LINES || size > MOST_BYTES - self.bytes
    }

    /// Whether a line that has begun with these bytes passes a limit already.
    pub(crate) fn is_past_limit(&self, begun: &[u8]) -> bool
        ensures passes { (p : Progress) → Stands self.now p → result ≡ passes_limit p (length begun.now) (length begun.now) }
        ensures past { result ≡ is_past self.now.lines self.now.bytes (length begun.now) (length begun.now) }
    {
        self.is_past(begun.len() as u64, begun.len() as u64)
    }

    /// Takes a line, which a line feed ended or not, and adds the text of what it gained to `out`.
    pub(crate) fn take_line(
        &mut self,
        line: &[u8],
        feed: bool,
        out: &mut String,
    ) -> Result<Ending, NoMemory>
        requires { IsReady self.old }
        ensures line { (p : Progress) → Stands self.old p
            → IfOk result (λ ending. Adds self.new (string_bytes out.old) (string_bytes out.new) ending p (after_line p line.now feed)) }
        ensures bytes { IfOk result (λ ending. is_open ending ≡ true → self.new.bytes ≡ self.old.bytes + size_of line.now feed) }
    {
        let number = self.lines + 1;
        let size = size_of(line, feed);
        if self.is_past(line.len() as u64, size) {
            return Ok(Ending::PastLimit);
        }
        match self.gain(number, line) {
            Ok(items) => {
                write_items(&items, out)?;
                self.lines = number;
                self.bytes += size;
                Ok(Ending::Open)
            }
            Err(NotTaken::Refused(refusal)) => Ok(Ending::Refused { number, refusal }),
            Err(NotTaken::NoMemory) => Err(NoMemory),
        }
    }

    /// Reads a line and takes it.
    fn gain(&mut self, number: u64, line: &[u8]) -> Result<List<Item>, NotTaken>
        requires ready { IsReady self.old }
        requires number { number ≡ self.old.lines + 1 }
        ensures gained { (w : Option Model) → StandsIfThere self.old.world w → Gives self.new.world result w (line_at number line.now) }
        ensures lines { self.new.lines ≡ self.old.lines }
        ensures bytes { self.new.bytes ≡ self.old.bytes }
    {
        let line = match read_line(self.alloc, number, line) {
            Ok(line) => line,
            Err(LineFault::BadLine { place, .. }) => {
                return Err(NotTaken::from(LineRefusal::BadLine { place }));
            }
            Err(LineFault::NoMemory) => return Err(NotTaken::NoMemory),
        };
        match &mut self.world {
            Some(world) => later(world, number, line),
            None => {
                let (world, items) = begin(self.alloc, line)?;
                self.world = Some(world);
                Ok(items)
            }
        }
    }
}

/// The bytes of a line, with its line feed where it has one.
fn size_of(line: &[u8], feed: bool) -> u64
    ensures { result ≡ size_of line.now feed }
{
    line.len() as u64 + u64::from(feed)
}

fn write_items(items: &List<Item>, out: &mut String) -> Result<(), NoMemory>
    ensures { OnOk result (string_bytes out.new ≡ string_bytes out.old ++ transcript_text items.now) }
{
    for item in items.as_slice() {
        append_item(out, item)?;
        out.push('\n')?;
    }
    Ok(())
}
