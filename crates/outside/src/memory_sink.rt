ghost use Rattle.std.specs.Prelude.{◌≡◌, ◌<◌, true, min, max, length, [], IsErr, IfOk, OnErr};
ghost use Rattle.std.specs.Io.{WritesAtMost};
ghost use Rattle.std.specs.Io.KnownBytes.{WriteAppends};
ghost use Rattle.outside.specs.Faults.{HasCause};
ghost use Rattle.outside.specs.Memory.{is_failing, took, took_none};

use crate::marks::WriteMark;
use crate::sink::Sink;
use crate::source::Failed;
use std::alloc::Global;
use std::marker::Model;

/// A sink over memory, which takes at most a chosen number of bytes in one call and fails at chosen calls.
#[derive(Debug, Drop)]
pub struct MemSink {
    bytes: Vec<u8>,
    piece: usize,
    calls: u64,
    failing: Vec<u64>,
    faults: u64,
}

impl Model for MemSink {
    ghost use Rattle.std.specs.Prelude.{◌<◌};
    ghost use Rattle.outside.specs.Memory.{Store};

    ghost Value = { Store };

    ghost view = { λ s. record { stored = s.bytes.items; piece = s.piece; failing = s.failing.items; calls = s.calls; faults = s.faults } };

    ghost invariant = { λ s. 0 < s.piece };
}

impl MemSink {
    /// A sink that takes at most `piece` bytes in one call (0 counts as 1), and whose calls with a number in `failing`
    /// fail. Calls are numbered from 1.
    pub fn new(alloc: Global, piece: usize, failing: Vec<u64>) -> MemSink
        ensures { result ≡ record { stored = []; piece = max piece 1; failing = failing.items; calls = 0; faults = 0 } }
    {
        MemSink {
            bytes: Vec::new(alloc),
            piece: piece.max(1),
            calls: 0,
            failing,
            faults: 0,
        }
    }

    /// The bytes written so far.
    pub fn as_slice(&self) -> &[u8]
        ensures { result.now ≡ self.now.stored }
    {
        self.bytes.as_slice()
    }

    /// How often it was called, or 2^64 - 1 where that is more.
    pub fn calls(&self) -> u64
        ensures { result ≡ self.now.calls }
    {
        self.calls
    }
}

impl Sink for MemSink {
    ghost use Rattle.std.specs.Prelude.{Some};

    ghost written = { λ s. Some s.stored };

    ghost faults = { λ s. s.faults };

    /// Want of memory counts as a failure, too. No clause says that a call fails of nothing else.
    fn write(&mut self, piece: &[u8]) -> Result<usize, Failed>
        ensures bound { WritesAtMost result piece.now }
        ensures some { IfOk result (λ count. 0 < length piece.now → 0 < count) }
        ensures bytes { WriteAppends (Some self.old.stored) (Some self.new.stored) result piece.now }
        ensures cause { HasCause self.old.faults self.new.faults result }
        ensures chosen { is_failing self.old.failing self.old.calls ≡ true → IsErr result }
        ensures failed { OnErr result (self.new ≡ took_none self.old) }
        ensures took { IfOk result (λ count. (count ≡ min (length piece.now) self.old.piece) × (self.new ≡ took self.old piece.now count)) }
    {
        self.calls = self.calls.saturating_add(1);
        let count = piece.len().min(self.piece);
        if self.failing.contains(&self.calls)
            || self.bytes.extend_from_slice(&piece[..count]).is_err()
        {
            self.faults = self.faults.saturating_add(1);
            return Err(Failed);
        }
        Ok(count)
    }

    /// It keeps no mark.
    fn mark(&mut self, _mark: WriteMark)
        ensures stays { self.new ≡ self.old }
    {}
}
