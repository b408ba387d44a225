ghost use Rattle.std.specs.Prelude.{◌≡◌, true, IfErr, IsErr, OnOk, OnErr, [], ◌∷◌, ◌++◌, Some};
ghost use Rattle.outside.specs.Calls.{Adds, is_done};
ghost use Rattle.outside.specs.Faults.{HasCause, one_more};
ghost use Rattle.outside.specs.Memory.{is_failing, TakesLast};

use crate::parts::{Part, Spawner};
use std::alloc::Global;
use std::marker::Model;
use std::snapshot::Snapshot;

// A part that was handed over, and whether it was started.
#[derive(Drop)]
pub struct SpawnerNote<P, C> {
    part: Snapshot<Part<P, C>>,
    started: bool,
}

/// A spawner over memory, which keeps the parts that it is to start, and refuses chosen ones. It tells what was handed to it
/// for as long as it finds memory to note it.
#[derive(Drop)]
pub struct MemSpawner<P, C> {
    parts: Vec<Part<P, C>>,
    notes: Vec<SpawnerNote<P, C>>,
    tells: bool,
    calls: u64,
    failing: Vec<u64>,
    faults: u64,
}

impl<P, C> Model for MemSpawner<P, C> {
    ghost use Rattle.outside.specs.Memory.{SpawnerState, noted};
    ghost use Rattle.outside.specs.Notes.{handed_part};
    ghost use Rattle.outside.specs.declared.parts.Part.{Part};

    ghost Value = { SpawnerState (Part P C) };

    ghost view = { λ s. record { parts = s.parts.items; handed = noted handed_part s.tells s.notes.items; failing = s.failing.items; calls = s.calls; faults = s.faults } };
}

impl<P: Drop, C: Drop> MemSpawner<P, C> {
    /// A spawner that keeps no part yet, and whose starts with a number in `failing`, from 1 on, fail.
    pub fn new(alloc: Global, failing: Vec<u64>) -> MemSpawner<P, C>
        ensures { result ≡ record { parts = []; handed = Some []; failing = failing.items; calls = 0; faults = 0 } }
    {
        MemSpawner {
            parts: Vec::new(alloc),
            notes: Vec::new(alloc),
            tells: true,
            calls: 0,
            failing,
            faults: 0,
        }
    }

    /// Takes the part that was started last, where it keeps one.
    pub fn take(&mut self) -> Option<Part<P, C>>
        ensures last { TakesLast self.old.parts self.new.parts result }
        ensures rest { self.new ≡ record self.old { parts = self.new.parts } }
    {
        self.parts.pop()
    }

    /// The parts that it keeps, in the order of their starts.
    pub fn parts(&self) -> &[Part<P, C>]
        ensures { result.now ≡ self.now.parts }
    {
        self.parts.as_slice()
    }

    // Notes what was handed over, for as long as there is memory.
    fn note(&mut self, note: SpawnerNote<P, C>)
        ensures handed { Adds self.old.handed self.new.handed (record { part = note.part.value; started = note.started } ∷ []) }
        ensures rest { self.new ≡ record self.old { handed = self.new.handed } }
    {
        if self.notes.push(note).is_err() {
            self.tells = false;
        }
    }
}

impl<P: Drop, C: Drop> Spawner for MemSpawner<P, C> {
    type Pass = P;

    type Conn = C;

    ghost handed = { λ s. s.handed };

    ghost faults = { λ s. s.faults };

    /// Want of memory counts as a failure, too.
    fn start(&mut self, part: Part<P, C>) -> Result<(), Part<P, C>>
        ensures handed { Adds self.old.handed self.new.handed (record { part = part; started = is_done result } ∷ []) }
        ensures back { IfErr result (λ refused. refused ≡ part) }
        ensures cause { HasCause self.old.faults self.new.faults result }
        ensures chosen { is_failing self.old.failing self.old.calls ≡ true → IsErr result }
        ensures kept { OnOk result (self.new.parts ≡ self.old.parts ++ part ∷ []) }
        ensures refused { OnErr result (self.new.parts ≡ self.old.parts) }
        ensures calls { (self.new.failing ≡ self.old.failing) × (self.new.calls ≡ one_more self.old.calls) }
    {
        self.calls = self.calls.saturating_add(1);
        let handed = Snapshot::of(&part);
        if self.failing.contains(&self.calls) {
            self.faults = self.faults.saturating_add(1);
            self.note(SpawnerNote {
                part: handed,
                started: false,
            });
            return Err(part);
        }
        match self.parts.push(part) {
            Ok(()) => {
                self.note(SpawnerNote {
                    part: handed,
                    started: true,
                });
                Ok(())
            }
            Err(refused) => {
                self.faults = self.faults.saturating_add(1);
                self.note(SpawnerNote {
                    part: handed,
                    started: false,
                });
                Err(refused.value)
            }
        }
    }
}
