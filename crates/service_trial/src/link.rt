ghost use Rattle.std.specs.Prelude.{◌≡◌, None, IfOk};

use crate::board::Board;
use crate::plan::{Plan, STREAM};
use etcd_types::NoMemory;
use outside::{AnswerEnd, CallKind, Link, LinkFault, MemSource};
use std::alloc::Global;
use std::str;
use std::sync::Arc;
use std::sync::atomic::Ordering::SeqCst;

/// An answer gives pieces of so many bytes at most.
const PIECE: usize = 100;

/// A call that begins a stream behind what the plan's stream gives.
const BEHIND: &str = "\"start_revision\":\"3\"";

/// A link whose calls are answered as the plan says.
#[derive(Drop)]
pub struct TrialLink {
    alloc: Global,
    board: Arc<Board, Global>,
    faults: u64,
}

impl TrialLink {
    pub(crate) fn new(alloc: Global, board: Arc<Board, Global>) -> TrialLink {
        TrialLink {
            alloc,
            board,
            faults: 0,
        }
    }

    // Which read of the stream fails that this call begins, from 1 on, and 0 where none does. The first stream breaks at the
    // read that the plan names, and none is begun behind its end.
    fn begun_stream(&self, call: &[u8]) -> Option<u64> {
        let Plan::BrokenStream(read) = self.board.plan else {
            return None;
        };
        if str::from_utf8(call).unwrap_or("").contains(BEHIND) {
            return None;
        }
        let is_first = self.board.streams.fetch_add(1, SeqCst) == 0;
        Some(if is_first { read } else { 0 })
    }

    // What a call is answered, and which read of it fails.
    fn answer(&self, kind: CallKind, call: &[u8]) -> Option<(&'static [u8], u64)> {
        match kind {
            CallKind::Watches(_) => Some((STREAM, self.begun_stream(call)?)),
            _ => Some((self.board.answer()?, 0)),
        }
    }
}

/// A source of these bytes, of which this read fails, from 1 on, and none where it is 0.
fn source_of(alloc: Global, bytes: &[u8], read: u64) -> Result<MemSource, NoMemory>
    ensures { IfOk result (λ source. source.faults ≡ 0) }
{
    let mut failing = Vec::new(alloc);
    failing.push(read)?;
    let bytes = Vec::from_slice(alloc, bytes)?;
    Ok(MemSource::new(bytes, PIECE, failing))
}

impl Link for TrialLink {
    type Answer = MemSource;

    ghost made = { λ l. None };

    ghost faults = { λ l. l.faults };

    fn begin(&mut self, _member: u32, kind: CallKind, call: &[u8]) -> Result<MemSource, LinkFault> {
        let Some((bytes, read)) = self.answer(kind, call) else {
            self.faults = self.faults.saturating_add(1);
            return Err(LinkFault::Failed);
        };
        Ok(source_of(self.alloc, bytes, read)?)
    }

    fn end(&mut self, _answer: MemSource, _how: AnswerEnd) {
        self.board.note_answer();
    }

    fn forget(&mut self, _stream: u64) {}
}
