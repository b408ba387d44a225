ghost use Rattle.std.specs.Prelude.{◌≡◌, IsOk};

use crate::marks::{ReadMark, WriteMark};
use crate::sink::Sink;
use crate::source::{Failed, Source};
use std::io::{ErrorKind, Read, Write};
use std::marker::Model;

// How often a read or a write that a signal interrupted is tried in all. No signal comes so often.
const TRIES: u32 = u32::MAX;

/// A reader as a source. A read that a signal interrupts is tried again, 2^32 - 1 times in all; each other error of the
/// reader is a failure, and so is the last of these.
#[derive(Drop)]
pub struct Reading<R: Read + Drop> {
    reader: R,
    faults: u64,
}

impl<R: Read + Drop> Model for Reading<R> {
    ghost use Rattle.outside.specs.Faults.{Counted};

    ghost Value = { Counted R };

    ghost view = { λ s. record { inner = s.reader; faults = s.faults } };
}

impl<R: Read + Drop> Reading<R> {
    /// A source that reads from `reader`, with no failure yet.
    pub fn new(reader: R) -> Reading<R>
        ensures { result ≡ record { inner = reader; faults = 0 } }
    {
        Reading { reader, faults: 0 }
    }
}

impl<R: Read + Drop> Source for Reading<R> {
    ghost left = { λ s. R.remaining s.inner };

    ghost faults = { λ s. s.faults };

    ghost reads = { λ old size came new. Unit {0} };

    fn read(&mut self, room: &mut [u8]) -> Result<usize, Failed> {
        for _ in 0..TRIES {
            match self.reader.read(room) {
                Ok(count) => return Ok(count),
                Err(error) if error.kind() == ErrorKind::Interrupted => {}
                Err(_) => break,
            }
        }
        self.faults = self.faults.saturating_add(1);
        Err(Failed)
    }

    /// A reader doesn't say whether its other end is there.
    fn check(&mut self) -> Result<(), Failed>
        ensures there { IsOk result }
        ensures stays { self.new ≡ self.old }
    {
        Ok(())
    }

    /// It keeps no mark.
    fn mark(&mut self, _mark: ReadMark)
        ensures stays { self.new ≡ self.old }
    {}
}

/// A writer as a sink. A write that a signal interrupts is tried again, 2^32 - 1 times in all.
#[derive(Drop)]
pub struct Writing<W: Write + Drop> {
    writer: W,
    faults: u64,
}

impl<W: Write + Drop> Model for Writing<W> {
    ghost use Rattle.outside.specs.Faults.{Counted};

    ghost Value = { Counted W };

    ghost view = { λ s. record { inner = s.writer; faults = s.faults } };
}

impl<W: Write + Drop> Writing<W> {
    /// A sink that writes to `writer`, with no failure yet.
    pub fn new(writer: W) -> Writing<W>
        ensures { result ≡ record { inner = writer; faults = 0 } }
    {
        Writing { writer, faults: 0 }
    }
}

impl<W: Write + Drop> Sink for Writing<W> {
    ghost written = { λ s. W.contents s.inner };

    ghost faults = { λ s. s.faults };

    /// A writer that takes nothing of a piece that isn't empty has failed.
    fn write(&mut self, piece: &[u8]) -> Result<usize, Failed> {
        for _ in 0..TRIES {
            match self.writer.write(piece) {
                Ok(count) if count > 0 || piece.is_empty() => return Ok(count),
                Err(error) if error.kind() == ErrorKind::Interrupted => {}
                _ => break,
            }
        }
        self.faults = self.faults.saturating_add(1);
        Err(Failed)
    }

    /// It keeps no mark.
    fn mark(&mut self, _mark: WriteMark)
        ensures stays { self.new ≡ self.old }
    {}
}
