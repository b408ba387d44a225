ghost use Rattle.std.specs.Prelude.{◌≡◌, true, IfOk, IfErr, IsErr, [], ◌∷◌, Some, slice_get};
ghost use Rattle.outside.specs.Calls.{Adds, Begun, Ended, had, HasLinkCause};
ghost use Rattle.outside.specs.Memory.{is_failing, fresh_answer, IsCalled};
ghost use Rattle.outside.specs.Notes.{link_call, supply_left};
ghost use Rattle.outside.specs.declared.link.LinkFault.TheVariants.{NoMemory as Wanting};

use crate::link::{AnswerEnd, CallKind, Link, LinkFault};
use crate::memory_source::MemSource;
use etcd_types::{Bytes, List, NoMemory};
use std::alloc::Global;
use std::marker::Model;
use std::snapshot::Snapshot;

// What was done on a link.
#[derive(Drop)]
pub enum LinkNote {
    Begun {
        member: u32,
        kind: CallKind,
        call: Bytes,
        answer: Snapshot<Result<MemSource, LinkFault>>,
    },
    Ended {
        answer: Snapshot<MemSource>,
        how: AnswerEnd,
    },
}

/// A link over memory, which answers each call with the next of the replies that it was given, and fails at chosen calls.
/// It tells what is done on it for as long as it finds memory to note it.
#[derive(Drop)]
pub struct MemLink {
    alloc: Global,
    replies: List<Bytes>,
    piece: usize,
    notes: Vec<LinkNote>,
    tells: bool,
    calls: u64,
    failing: Vec<u64>,
    faults: u64,
}

impl Model for MemLink {
    ghost use Rattle.outside.specs.Memory.{LinkState, noted};
    ghost use Rattle.outside.specs.Notes.{link_call};

    ghost Value = { LinkState };

    ghost view = { λ l. record { replies = l.replies; piece = l.piece; made = noted link_call l.tells l.notes.items; failing = l.failing.items; calls = l.calls; faults = l.faults } };
}

impl MemLink {
    /// A link whose call with the number n, from 1 on, is answered with the n-th of these replies, in pieces of at most
    /// `piece` bytes (0 counts as 1). A call with no reply and those with a number in `failing` fail.
    pub fn new(alloc: Global, replies: List<Bytes>, piece: usize, failing: Vec<u64>) -> MemLink
        ensures { result ≡ record { replies = replies; piece = piece; made = Some []; failing = failing.items; calls = 0; faults = 0 } }
    {
        MemLink {
            alloc,
            replies,
            piece,
            notes: Vec::new(alloc),
            tells: true,
            calls: 0,
            failing,
            faults: 0,
        }
    }

    // The next reply.
    fn reply(&mut self) -> Result<MemSource, LinkFault>
        ensures gave { IfOk result (λ answer. slice_get self.old.replies self.old.calls ≡ Some answer.left) }
        ensures fresh { IfOk result (λ answer. answer ≡ fresh_answer answer.left self.old.piece) }
        ensures chosen { is_failing self.old.failing self.old.calls ≡ true → IsErr result }
        ensures cause { HasLinkCause self.old.faults self.new.faults result }
        ensures rest { IsCalled self.old self.new }
        ensures made { self.new.made ≡ self.old.made }
    {
        let place = self.calls as usize;
        self.calls = self.calls.saturating_add(1);
        match self.replies.as_slice().get(place) {
            Some(reply) if !self.failing.contains(&self.calls) => Ok(source_of(
                self.alloc, reply, self.piece,
            )?),
            _ => {
                self.faults = self.faults.saturating_add(1);
                Err(LinkFault::Failed)
            }
        }
    }

    // Notes what is done, for as long as there is memory.
    fn note(&mut self, note: LinkNote)
        ensures made { Adds self.old.made self.new.made (link_call note ∷ []) }
        ensures rest { self.new ≡ record self.old { made = self.new.made } }
    {
        if self.notes.push(note).is_err() {
            self.tells = false;
        }
    }
}

impl Link for MemLink {
    type Answer = MemSource;

    ghost made = { λ l. l.made };

    ghost faults = { λ l. l.faults };

    /// A call whose reply finds no memory answers so.
    fn begin(&mut self, member: u32, kind: CallKind, call: &[u8]) -> Result<MemSource, LinkFault>
        ensures made { Adds self.old.made self.new.made (Begun member kind call.now (had supply_left result) ∷ []) }
        ensures fresh { IfOk result (λ answer. answer ≡ fresh_answer answer.left self.old.piece) }
        ensures cause { HasLinkCause self.old.faults self.new.faults result }
        ensures gave { IfOk result (λ answer. slice_get self.old.replies self.old.calls ≡ Some answer.left) }
        ensures chosen { is_failing self.old.failing self.old.calls ≡ true → IsErr result }
        ensures rest { IsCalled self.old self.new }
    {
        let answer = self.reply();
        match Bytes::from_slice(self.alloc, call) {
            Ok(call) => self.note(LinkNote::Begun {
                member,
                kind,
                call,
                answer: Snapshot::of(&answer),
            }),
            Err(NoMemory) => self.tells = false,
        }
        answer
    }

    fn end(&mut self, answer: MemSource, how: AnswerEnd)
        ensures made { Adds self.old.made self.new.made (Ended (supply_left answer) answer.faults how ∷ []) }
        ensures rest { self.new ≡ record self.old { made = self.new.made } }
    {
        self.note(LinkNote::Ended {
            answer: Snapshot::of(&answer),
            how,
        });
    }

    fn forget(&mut self, _stream: u64)
        ensures stays { self.new ≡ self.old }
    {}
}

// A source of these bytes.
fn source_of(alloc: Global, bytes: &Bytes, piece: usize) -> Result<MemSource, LinkFault>
    ensures fresh { IfOk result (λ source. source ≡ fresh_answer bytes.now piece) }
    ensures wanting { IfErr result (λ fault. fault ≡ Wanting) }
{
    match Vec::from_slice(alloc, bytes.as_slice()) {
        Ok(bytes) => Ok(MemSource::new(bytes, piece, Vec::new(alloc))),
        Err(_) => Err(LinkFault::NoMemory),
    }
}
