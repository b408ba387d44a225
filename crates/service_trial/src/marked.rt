use outside::{Failed, MemSink, Sink, WriteMark};
use std::alloc::Global;

/// A sink over memory that also keeps what it last heard to be written.
#[derive(Drop)]
pub struct Marked {
    sink: MemSink,
    pub mark: Option<WriteMark>,
}

impl Marked {
    /// A sink that takes at most `piece` bytes in one call, and whose calls with a number in `failing` fail.
    pub fn new(alloc: Global, piece: usize, failing: Vec<u64>) -> Marked {
        Marked {
            sink: MemSink::new(alloc, piece, failing),
            mark: None,
        }
    }

    /// The bytes written so far.
    pub fn as_slice(&self) -> &[u8] {
        self.sink.as_slice()
    }
}

impl Sink for Marked {
    ghost use Rattle.std.specs.Prelude.{Some};

    ghost written = { λ s. Some s.sink.stored };

    ghost faults = { λ s. s.sink.faults };

    fn write(&mut self, piece: &[u8]) -> Result<usize, Failed> {
        Ok(self.sink.write(piece)?)
    }

    fn mark(&mut self, mark: WriteMark) {
        self.mark = Some(mark);
    }
}
