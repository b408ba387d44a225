// What the second listener shows, and what its figures are made of.

use crate::asker::Work;
use crate::busiest::busiest_of;
use crate::system::System;
use etcd_types::{Bytes, List, NoMemory};
use member_links::{Health, Members};
use metrics_pages::{Pages, Shows, listen};
use metrics_text::{
    ClientFigures, Figures, MachineFigures, MemberFigure, MemberState, ReplyFigure, WorkFigures,
};
use outside::{Clock, SystemClock};
use part_threads::Lookout;
use socket_limits::line_time;
use sockets::{Counts, Tallies};
use std::alloc::Global;
use std::net::{Net, TcpListener, TcpStream};
use std::rt::Clock as Times;
use std::str;
use std::sync::{Arc, Mutex, Wait};

/// So many requests to the second listener are answered at once.
const AT_ONCE: u32 = 4;

/// What is told as the version.
const VERSION: &[u8] = b"0.1.0";

/// What a server counts, where it is to count, in terms of any type by which its machine is looked at: only so is it found that it may cross
/// threads.
#[derive(Drop)]
pub(crate) struct TapOf<L> {
    pub(crate) tallies: Tallies,
    // by what the machine is looked at, once it runs
    lookout: Mutex<Option<L>>,
}

/// What a server counts.
pub(crate) type Tap = TapOf<Lookout>;

impl Tap {
    /// Nothing was counted, and no machine runs.
    pub(crate) fn new(alloc: Global) -> Result<Tap, NoMemory> {
        Ok(TapOf {
            tallies: Tallies::new(alloc)?,
            lookout: Mutex::new(None),
        })
    }

    /// The machine runs.
    pub(crate) fn shown<R: Wait>(&self, rt: &R, lookout: Lookout) {
        *self.lookout.lock(rt) = Some(lookout);
    }

    // The machine in numbers at this reading of the clock. One that doesn't run has nothing.
    fn machine<R: Wait>(&self, rt: &R, now: u64) -> MachineFigures {
        let mut held = self.lookout.lock(rt);
        let Some(lookout) = (*held).take() else {
            return MachineFigures {
                owned: 0,
                waiting: 0,
                steps: 0,
                revision: 0,
                session: 0,
            };
        };
        let (figures, lookout) = lookout.look(rt);
        *held = Some(lookout);
        MachineFigures {
            owned: figures.owned as u64,
            waiting: figures.requests as u64,
            steps: figures.steps,
            revision: figures.revision,
            session: figures.session_end.map_or(0, |end| end.saturating_sub(now)),
        }
    }
}

/// Who knows what a server has to tell.
#[derive(Drop)]
pub(crate) struct TellerOf<R: Drop, L> {
    pub(crate) rt: R,
    pub(crate) alloc: Global,
    pub(crate) members: Arc<Members, Global>,
    pub(crate) count: u32,
    pub(crate) tap: Arc<TapOf<L>, Global>,
    pub(crate) clock: SystemClock<R>,
}

/// Who knows what this server has to tell.
pub(crate) type Teller<R> = TellerOf<R, Lookout>;

/// How a member's health is named.
fn state_of(health: Health) -> MemberState {
    match health {
        Health::Up => MemberState::Up,
        Health::Suspect => MemberState::Suspect,
        Health::Down => MemberState::Down,
        Health::Barred => MemberState::Barred,
    }
}

/// What clients have, as it was counted.
fn clients_of(counts: &Counts) -> ClientFigures {
    ClientFigures {
        open: counts.open,
        opened: counts.opened,
        watches: counts.watches,
        messages: counts.messages,
        events: counts.events,
        cached: counts.cached,
    }
}

/// What was replied, as it was counted.
fn replies_of(alloc: Global, counts: &Counts) -> Result<List<ReplyFigure>, NoMemory> {
    let mut replies = List::new(alloc);
    for counted in counts.replies.as_slice() {
        replies.push(ReplyFigure {
            kind: counted.kind,
            status: counted.status,
            count: counted.count,
        })?;
    }
    Ok(replies)
}

impl<R: Wait + Times + Copy + Drop> Teller<R> {
    // What there is of each member.
    fn members(&self) -> Result<List<MemberFigure>, NoMemory> {
        let mut members = List::new(self.alloc);
        for number in 1..=self.count {
            if let Some((host, calls)) = self.members.calls(number) {
                members.push(MemberFigure {
                    number,
                    host: Bytes::from_slice(self.alloc, host.as_bytes())?,
                    state: state_of(self.members.health(number)),
                    made: calls.made,
                    lost: calls.lost,
                    micros: calls.micros,
                })?;
            }
        }
        Ok(members)
    }

    // What the workers do.
    fn work(&self) -> WorkFigures {
        let (workers, busy) = self.members.workers();
        WorkFigures {
            workers,
            busy,
            streams: self.members.streams(&self.rt),
            untaken: self.members.untaken(),
        }
    }
}

impl<R: Wait + Times + Copy + Drop> Shows for Teller<R> {
    fn figures(&mut self) -> Result<Figures, NoMemory> {
        let now = self.clock.now();
        let counts = self.tap.tallies.counts(&self.rt)?;
        Ok(Figures {
            clients: clients_of(&counts),
            machine: self.tap.machine(&self.rt, now),
            work: self.work(),
            replies: replies_of(self.alloc, &counts)?,
            members: self.members()?,
            ranges: busiest_of(&self.rt, self.alloc, &self.members)?,
        })
    }

    fn one_answers(&self) -> bool {
        (1..=self.count).any(|number| self.members.health(number) == Health::Up)
    }
}

impl<R: Net<Listener = TcpListener, Stream = TcpStream> + Times + Wait + Eprint + Copy + Drop> Work
    for Pages<R, Teller<R>> {
    /// Answers for as long as the process lives.
    fn work(self) {
        self.answer_all();
    }
}

/// Who shows what a server counts on this address, where it counts. Where nobody can listen there, it is told why.
pub(crate) fn pages_of<
    R: Net<Listener = TcpListener, Stream = TcpStream> + Times + Wait + Eprint + Copy + Drop,
>(
    rt: R,
    alloc: Global,
    system: &System<R>,
    address: &Bytes,
) -> Result<Vec<Pages<R, Teller<R>>>, NoMemory> {
    let mut pages = Vec::new(alloc);
    let Some(first) = system.teller()? else {
        return Ok(pages);
    };
    let address = str::from_utf8(address.as_slice()).unwrap_or("");
    let listener = match listen(&rt, alloc, address) {
        Ok(listener) => listener,
        Err(error) => {
            let when = line_time(&rt);
            let _ = eprintln!(rt; "{when:.3} ERROR etcd_proxy: can't listen on {address}: {error}");
            return Err(NoMemory);
        }
    };
    pages.push(Pages::new(rt, alloc, VERSION, &listener, first)?)?;
    for _ in 1..AT_ONCE {
        if let Some(teller) = system.teller()? {
            pages.push(Pages::new(rt, alloc, VERSION, &listener, teller)?)?;
        }
    }
    Ok(pages)
}
