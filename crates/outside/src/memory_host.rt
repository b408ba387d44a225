ghost use Rattle.std.specs.Prelude.{◌≡◌, ◌↔◌, true, false, IsErr, OnOk, OnErr, IfOk, [], ◌∷◌, Some};
ghost use Rattle.outside.specs.Calls.{Adds, Listened, Accepted};
ghost use Rattle.outside.specs.Faults.{HasCause, one_more};
ghost use Rattle.outside.specs.Memory.{is_failing, Accepts, FailsToAccept};
ghost use Rattle.outside.specs.Notes.{host_call};

use crate::host::Host;
use crate::source::Failed;
use etcd_types::{Bytes, NoMemory};
use std::alloc::Global;
use std::marker::Model;
use std::snapshot::Snapshot;

// A call that was made, and what came of it.
#[derive(Drop)]
pub enum HostNote<C> {
    Listened {
        address: Bytes,
        answer: Result<(), Failed>,
    },
    Accepted(Snapshot<Result<Option<C>, Failed>>),
}

/// A host over memory, which accepts the connections that it was given, the first one first, and fails at chosen calls. Once none is
/// left it fails too, or stops where it is told to. It tells its calls for as long as it finds memory to note them.
#[derive(Drop)]
pub struct MemHost<C> {
    waiting: Vec<C>,
    stops: bool,
    notes: Vec<HostNote<C>>,
    tells: bool,
    calls: u64,
    failing: Vec<u64>,
    faults: u64,
}

impl<C> Model for MemHost<C> {
    ghost use Rattle.outside.specs.Memory.{HostState, noted};
    ghost use Rattle.outside.specs.Notes.{host_call as call_of};

    ghost Value = { HostState C };

    ghost view = { λ h. record { waiting = h.waiting.items; stops = h.stops; made = noted call_of h.tells h.notes.items; failing = h.failing.items; calls = h.calls; faults = h.faults } };
}

impl<C: Drop> MemHost<C> {
    /// A host that accepts these connections, and whose calls with a number in `failing`, from 1 on, fail.
    pub fn new(alloc: Global, waiting: Vec<C>, failing: Vec<u64>) -> MemHost<C>
        ensures { result ≡ record { waiting = waiting.items; stops = false; made = Some []; failing = failing.items; calls = 0; faults = 0 } }
    {
        MemHost {
            waiting,
            stops: false,
            notes: Vec::new(alloc),
            tells: true,
            calls: 0,
            failing,
            faults: 0,
        }
    }

    /// The same host, which stops once no connection is left.
    pub fn stopping(self) -> MemHost<C>
        ensures { result ≡ record self { stops = true } }
    {
        MemHost {
            stops: true,
            ..self
        }
    }

    // Counts a call, and says whether it is to fail.
    fn is_chosen(&mut self) -> bool
        ensures chosen { result ≡ is_failing self.old.failing self.old.calls }
        ensures calls { self.new ≡ record self.old { calls = one_more self.old.calls } }
    {
        self.calls = self.calls.saturating_add(1);
        self.failing.contains(&self.calls)
    }

    // Notes a call, for as long as there is memory.
    fn note(&mut self, note: HostNote<C>)
        ensures made { Adds self.old.made self.new.made (host_call note ∷ []) }
        ensures rest { self.new ≡ record self.old { made = self.new.made } }
    {
        if self.notes.push(note).is_err() {
            self.tells = false;
        }
    }
}

impl<C: Drop> Host for MemHost<C> {
    type Conn = C;

    ghost made = { λ h. h.made };

    ghost faults = { λ h. h.faults };

    fn listen(&mut self, address: &Bytes) -> Result<(), Failed>
        ensures made { Adds self.old.made self.new.made (Listened address.now result ∷ []) }
        ensures cause { HasCause self.old.faults self.new.faults result }
        ensures chosen { IsErr result ↔ (is_failing self.old.failing self.old.calls ≡ true) }
        ensures waiting { (self.new.waiting ≡ self.old.waiting) × (self.new.stops ≡ self.old.stops) }
        ensures calls { (self.new.failing ≡ self.old.failing) × (self.new.calls ≡ one_more self.old.calls) }
    {
        let mut answer = Ok(());
        if self.is_chosen() {
            self.faults = self.faults.saturating_add(1);
            answer = Err(Failed);
        }
        match address.copy(*self.notes.allocator()) {
            Ok(address) => self.note(HostNote::Listened { address, answer }),
            Err(NoMemory) => self.tells = false,
        }
        answer
    }

    fn accept(&mut self) -> Result<Option<C>, Failed>
        ensures made { Adds self.old.made self.new.made (Accepted result ∷ []) }
        ensures cause { HasCause self.old.faults self.new.faults result }
        ensures chosen { is_failing self.old.failing self.old.calls ≡ true → IsErr result }
        ensures only { IsErr result → FailsToAccept self.old }
        ensures came { IfOk result (Accepts self.old self.new) }
        ensures stays { OnErr result (self.new.waiting ≡ self.old.waiting) }
        ensures kept { (self.new.failing ≡ self.old.failing) × (self.new.stops ≡ self.old.stops) }
        ensures calls { self.new.calls ≡ one_more self.old.calls }
    {
        let is_chosen = self.is_chosen();
        let answer = if !is_chosen && !self.waiting.is_empty() {
            Ok(Some(self.waiting.remove(0)))
        } else if !is_chosen && self.stops {
            Ok(None)
        } else {
            self.faults = self.faults.saturating_add(1);
            Err(Failed)
        };
        self.note(HostNote::Accepted(Snapshot::of(&answer)));
        answer
    }
}
