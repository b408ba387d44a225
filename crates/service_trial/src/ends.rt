ghost use Rattle.std.specs.Prelude.{None};

use crate::board::Board;
use crate::link::TrialLink;
use crate::plan::Plan;
use etcd_types::{Bytes, Header, NoMemory};
use http_talk::{OwnMember, Ready};
use outside::{Failed, MemSource, SeededDraw, Sink, SystemClock, WriteMark};
use part_threads::{Ends, Lookout};
use std::alloc::Global;
use std::random::RandomSource;
use std::rt::Clock as Times;
use std::sync::{Arc, Wait};

/// A request comes in pieces of so many bytes at most.
const PIECE: usize = 50;

/// What the parts of the trial's server meet outside. A connection is its client's number.
#[derive(Drop)]
pub struct TrialEnds<R: Drop> {
    rt: R,
    alloc: Global,
    board: Arc<Board, Global>,
    clock: SystemClock<R>,
}

impl<R: Times + Wait + Drop + Copy> TrialEnds<R> {
    pub(crate) fn new(
        rt: R,
        alloc: Global,
        board: Arc<Board, Global>,
    ) -> Result<TrialEnds<R>, NoMemory> {
        let clock = SystemClock::new(alloc, rt)?;
        Ok(TrialEnds {
            rt,
            alloc,
            board,
            clock,
        })
    }
}

/// Where what a client is told goes.
#[derive(Drop)]
pub struct TrialSink<R: Drop> {
    rt: R,
    board: Arc<Board, Global>,
    client: u32,
    faults: u64,
}

impl<R: Wait + Drop> Sink for TrialSink<R> {
    ghost written = { λ s. None };

    ghost faults = { λ s. s.faults };

    fn write(&mut self, piece: &[u8]) -> Result<usize, Failed> {
        if self.board.plan != Plan::FailedWrite
            && self.board.tell(&self.rt, self.client, piece).is_ok()
        {
            return Ok(piece.len());
        }
        self.faults = self.faults.saturating_add(1);
        Err(Failed)
    }

    fn mark(&mut self, _mark: WriteMark) {}
}

impl<R: Times + Wait + RandomSource + Drop + Copy + Send + 'static> Ends for TrialEnds<R> {
    type Conn = u32;

    type Source = MemSource;

    type Sink = TrialSink<R>;

    type Answer = MemSource;

    type Link = TrialLink;

    type Clock = SystemClock<R>;

    type Draw = SeededDraw;

    fn another(&self) -> Result<TrialEnds<R>, NoMemory> {
        Ok(TrialEnds {
            rt: self.rt,
            alloc: self.alloc,
            board: Arc::try_clone(&self.board)?,
            clock: self.clock.copy(self.rt)?,
        })
    }

    fn link(&self) -> Result<TrialLink, NoMemory> {
        Ok(TrialLink::new(self.alloc, Arc::try_clone(&self.board)?))
    }

    fn clock(&self) -> Result<SystemClock<R>, NoMemory> {
        self.clock.copy(self.rt)
    }

    fn ticker_draw(&self) -> Option<SeededDraw> {
        self.draw()
    }

    fn draw(&self) -> Option<SeededDraw> {
        SeededDraw::new(&self.rt).ok()
    }

    fn one_answers(&self) -> bool {
        true
    }

    fn own(&self) -> Result<Arc<OwnMember, Global>, NoMemory> {
        let name = Bytes::from_slice(self.alloc, b"trial")?;
        let url = Bytes::from_slice(self.alloc, b"http://here:1")?;
        Ok(Arc::new(self.alloc, OwnMember { name, url })?)
    }

    fn newest(&self) -> Option<Header> {
        None
    }

    fn status(&self, _body: &[u8]) -> Result<Option<Ready>, NoMemory> {
        Ok(None)
    }

    fn open(
        &self,
        client: u32,
        _clock: &SystemClock<R>,
    ) -> Result<(MemSource, TrialSink<R>), NoMemory> {
        let asked = Vec::from_slice(self.alloc, self.board.plan.asked())?;
        let mut failing = Vec::new(self.alloc);
        if let Plan::FailedRead(read) = self.board.plan {
            failing.push(read)?;
        }
        let source = MemSource::new(asked, PIECE, failing);
        let sink = TrialSink {
            rt: self.rt,
            board: Arc::try_clone(&self.board)?,
            client,
            faults: 0,
        };
        Ok((source, sink))
    }

    fn close(&self, _source: MemSource, _sink: TrialSink<R>) {
        self.board.note_end();
    }

    fn shown(&self, _lookout: Lookout) {}
}
