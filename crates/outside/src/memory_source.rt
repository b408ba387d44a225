ghost use Rattle.std.specs.Prelude.{◌≡◌, ◌↔◌, true, max, length, IsOk, IsErr, IfOk, OnErr};
ghost use Rattle.std.specs.Io.{ReadsAtMost};
ghost use Rattle.std.specs.Io.KnownBytes.{ReadConsumes};
ghost use Rattle.outside.specs.Faults.{HasCause};
ghost use Rattle.outside.specs.Memory.{is_failing, given_to, gave, gave_none, Supplies};
ghost use Rattle.outside.specs.Reads.{came};

use crate::marks::ReadMark;
use crate::source::{Failed, Source};
use std::marker::Model;

/// A source over bytes in memory, which gives them in pieces of a chosen size and fails at chosen calls.
#[derive(Debug, Drop)]
pub struct MemSource {
    bytes: Vec<u8>,
    at: usize,
    piece: usize,
    calls: u64,
    failing: Vec<u64>,
    faults: u64,
}

impl Model for MemSource {
    ghost use Rattle.std.specs.Prelude.{◌≤◌, ◌<◌, drop};
    ghost use Rattle.std.specs.Vec.{vec_len};
    ghost use Rattle.outside.specs.Memory.{Supply};

    ghost Value = { Supply };

    ghost view = { λ s. record { left = drop s.at s.bytes.items; piece = s.piece; failing = s.failing.items; calls = s.calls; faults = s.faults } };

    ghost invariant = { λ s. (s.at ≤ vec_len s.bytes) × (0 < s.piece) };
}

impl MemSource {
    /// A source of these bytes in pieces of at most `piece` bytes (0 counts as 1), whose calls with a number in `failing`
    /// fail. Calls are numbered from 1.
    pub fn new(bytes: Vec<u8>, piece: usize, failing: Vec<u64>) -> MemSource
        ensures { result ≡ record { left = bytes.items; piece = max piece 1; failing = failing.items; calls = 0; faults = 0 } }
    {
        MemSource {
            bytes,
            at: 0,
            piece: piece.max(1),
            calls: 0,
            failing,
            faults: 0,
        }
    }
}

impl Source for MemSource {
    ghost use Rattle.std.specs.Prelude.{Some};

    ghost left = { λ s. Some s.left };

    ghost faults = { λ s. s.faults };

    ghost reads = { λ old size came new. Supplies old size came new };

    fn read(&mut self, room: &mut [u8]) -> Result<usize, Failed>
        ensures bound { ReadsAtMost result room.new }
        ensures bytes { ReadConsumes (Some self.old.left) (Some self.new.left) result room.new }
        ensures made { Supplies self.old (length room.old) (came result room.new) self.new }
        ensures cause { HasCause self.old.faults self.new.faults result }
        ensures chosen { IsErr result ↔ (is_failing self.old.failing self.old.calls ≡ true) }
        ensures failed { OnErr result (self.new ≡ gave_none self.old) }
        ensures gave { IfOk result (λ count. (count ≡ given_to self.old (length room.old)) × (self.new ≡ gave self.old count)) }
    {
        self.calls = self.calls.saturating_add(1);
        if self.failing.contains(&self.calls) {
            self.faults = self.faults.saturating_add(1);
            return Err(Failed);
        }
        let rest = &self.bytes[self.at..];
        let count = rest.len().min(room.len()).min(self.piece);
        room[..count].copy_from_slice(&rest[..count]);
        self.at += count;
        Ok(count)
    }

    /// Its other end is always there.
    fn check(&mut self) -> Result<(), Failed>
        ensures there { IsOk result }
        ensures stays { self.new ≡ self.old }
    {
        Ok(())
    }

    /// It keeps no mark.
    fn mark(&mut self, _mark: ReadMark)
        ensures stays { self.new ≡ self.old }
    {}
}
