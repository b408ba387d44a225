use outside::{Failed, ReadMark, Source};

/// A source whose first piece has another length than the others. The read with the number `failing` fails.
#[derive(Drop)]
pub struct Pieces<'a> {
    rest: &'a [u8],
    /// So many bytes of the first piece are still to come.
    first: usize,
    later: usize,
    reads: u64,
    failing: u64,
    faults: u64,
    /// What was last heard to be read.
    mark: Option<ReadMark>,
}

impl<'a> Pieces<'a> {
    /// Bytes that come in a piece of `first` bytes, where that is not 0, and then in pieces of `later` bytes.
    pub fn new(bytes: &'a [u8], first: usize, later: usize) -> Pieces<'a> {
        Pieces {
            rest: bytes,
            first,
            later,
            reads: 0,
            failing: 0,
            faults: 0,
            mark: None,
        }
    }

    /// The same bytes, where the read with this number fails. Reads are numbered from 1.
    pub fn failing(self, failing: u64) -> Pieces<'a> {
        Pieces { failing, ..self }
    }

    /// Whether this is what was last heard to be read.
    pub fn has_heard(&self, mark: ReadMark) -> bool {
        self.mark == Some(mark)
    }
}

impl<'a> Source for Pieces<'a> {
    ghost use Rattle.std.specs.Prelude.{None};

    ghost left = { λ _. None };

    ghost faults = { λ s. s.faults };

    ghost reads = { λ old size came new. Unit {0} };

    fn read(&mut self, room: &mut [u8]) -> Result<usize, Failed> {
        self.reads = self.reads.saturating_add(1);
        if self.reads == self.failing {
            self.faults = self.faults.saturating_add(1);
            return Err(Failed);
        }
        let piece = if self.first > 0 {
            self.first
        } else {
            self.later
        };
        let rest = self.rest;
        let count = rest.len().min(room.len()).min(piece);
        room[..count].copy_from_slice(&rest[..count]);
        self.rest = &rest[count..];
        self.first = self.first.saturating_sub(count);
        Ok(count)
    }

    fn check(&mut self) -> Result<(), Failed> {
        Ok(())
    }

    fn mark(&mut self, mark: ReadMark) {
        self.mark = Some(mark);
    }
}
