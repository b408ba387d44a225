use crate::asker::Shared;
use crate::newest::Newest;
use crate::own::own_member;
use crate::shown::{Tap, TapOf, Teller, TellerOf};
use etcd_types::{Bytes, Header, List, NoMemory};
use http_talk::{OwnMember, Ready};
use member_asks::{AskFault, Passed, pass_status};
use member_links::{Health, Members, SocketAnswer, SocketLink};
use outside::{Draw, SeededDraw, SystemClock, SystemDraw};
use part_threads::{Ends, Lookout};
use socket_limits::{LinkLimits, Permits, Until};
use sockets::{Client, Halt, Heads, SocketSink, SocketSource, SteppedClock, ends_of, linger};
use start_words::StartSettings;
use state_file::Sessions;
use std::alloc::Global;
use std::net::{Net, TcpStream};
use std::random::RandomSource;
use std::rt::Clock as Times;
use std::sync::{Arc, Wait};

/// So many large requests that came are worked on at once.
const LARGE: u64 = 8;

/// What a server's parts meet of the system: its sockets, its clock and its words, in terms of any type by which its machine is looked at.
#[derive(Drop)]
pub(crate) struct SystemOf<R: Drop, L> {
    rt: R,
    alloc: Global,
    members: Arc<Members, Global>,
    /// The hosts of the members, that of member 1 first.
    hosts: Arc<List<Bytes>, Global>,
    own: Arc<OwnMember, Global>,
    newest: Arc<Newest, Global>,
    limits: LinkLimits,
    permits: Arc<Permits, Global>,
    sessions: Arc<Sessions, Global>,
    halt: Arc<Halt, Global>,
    heads: Arc<Heads, Global>,
    clock: SystemClock<R>,
    /// Where it counts what connections do, if it is to.
    tap: Option<Arc<TapOf<L>, Global>>,
}

/// What this server's parts meet of the system.
pub(crate) type System<R> = SystemOf<R, Lookout>;

impl<R: Net + Times + Wait + Drop + Copy> System<R> {
    /// What askers of its members share.
    pub(crate) fn asked(&self) -> Result<Shared, NoMemory> {
        let members = Arc::try_clone(&self.members)?;
        let sessions = Arc::try_clone(&self.sessions)?;
        let halt = Arc::try_clone(&self.halt)?;
        let newest = Arc::try_clone(&self.newest)?;
        Ok(Shared::new(members, self.limits, sessions, newest, halt))
    }

    /// A further clock of the process.
    pub(crate) fn further_clock(&self) -> Result<SystemClock<R>, NoMemory> {
        self.clock.copy(self.rt)
    }

    /// A server with these settings: calls go to the hosts that they name, are limited by the session's time to live, and are made by so
    /// many workers. These are the sessions that they begin, and by that they are told to stop.
    pub(crate) fn new(
        rt: R,
        alloc: Global,
        settings: &StartSettings,
        sessions: &Arc<Sessions, Global>,
        halt: &Arc<Halt, Global>,
    ) -> Result<System<R>, NoMemory> {
        let mut hosts = List::new(alloc);
        for host in settings.endpoints.as_slice() {
            hosts.push(host.copy(alloc)?)?;
        }
        let members = Members::new(&rt, alloc, &hosts)?
            .with_workers(settings.workers)
            .with_sessions(Arc::try_clone(sessions)?);
        Ok(SystemOf {
            rt,
            alloc,
            members: Arc::new(alloc, members)?,
            hosts: Arc::new(alloc, hosts)?,
            own: Arc::new(alloc, own_member(alloc, settings)?)?,
            newest: Arc::new(alloc, Newest::new())?,
            limits: LinkLimits::of_ttl(settings.session_ttl),
            permits: Arc::new(alloc, Permits::new(alloc, LARGE))?,
            sessions: Arc::try_clone(sessions)?,
            halt: Arc::try_clone(halt)?,
            heads: Arc::new(alloc, Heads::new())?,
            clock: SystemClock::new(alloc, rt)?,
            tap: None,
        })
    }

    /// The same, which counts what connections do.
    pub(crate) fn counting(self) -> Result<System<R>, NoMemory> {
        let tap = Arc::new(self.alloc, Tap::new(self.alloc)?)?;
        Ok(SystemOf {
            tap: Some(tap),
            ..self
        })
    }

    /// Who tells what was counted, where it is.
    pub(crate) fn teller(&self) -> Result<Option<Teller<R>>, NoMemory> {
        let Some(tap) = &self.tap else {
            return Ok(None);
        };
        Ok(Some(TellerOf {
            rt: self.rt,
            alloc: self.alloc,
            members: Arc::try_clone(&self.members)?,
            count: u32::try_from(self.hosts.as_slice().len()).unwrap_or(u32::MAX),
            tap: Arc::try_clone(tap)?,
            clock: self.clock.copy(self.rt)?,
        }))
    }
}

impl<R: Net<Stream = TcpStream> + Times + Wait + Eprint + Clone + Drop> System<R> {
    // What a member says of itself, by that moment. An interim answer is none.
    fn passed(
        &self,
        number: u32,
        host: &[u8],
        body: &[u8],
        until: Until,
    ) -> Result<Option<Ready>, NoMemory> {
        let Ok(left) = until.left(&self.rt) else {
            return Ok(None);
        };
        let limits = LinkLimits {
            ask: u64::try_from(left.as_millis()).unwrap_or(u64::MAX),
            ..self.limits
        };
        let members = Arc::try_clone(&self.members)?;
        let mut link = SocketLink::new(self.rt.clone()?, members, limits);
        match pass_status(self.alloc, &mut link, host, number, body) {
            Ok(Passed { status, body }) => {
                if status >= 200 {
                    Ok(Some(Ready { status, body }))
                } else {
                    Ok(None)
                }
            }
            Err(AskFault::Lost | AskFault::Refused(_)) => Ok(None),
            Err(AskFault::NoMemory) => Err(NoMemory),
        }
    }
}

/// Words of the system, or of a generator that the system seeded.
#[derive(Drop)]
pub(crate) enum Words<R: Drop> {
    System(SystemDraw<R>),
    Seeded(SeededDraw),
}

impl<R: RandomSource + Drop> Draw for Words<R> {
    ghost use Rattle.std.specs.Prelude.{None};

    ghost given = { λ d. None };

    fn word(&mut self) -> u64 {
        match self {
            Words::System(draw) => draw.word(),
            Words::Seeded(draw) => draw.word(),
        }
    }
}

impl<
    R: Net<Stream = TcpStream>
        + Times
        + Wait
        + Eprint
        + RandomSource
        + Send
        + Clone
        + Drop
        + 'static,
> Ends for System<R> {
    type Conn = Client;

    type Source = SocketSource<R>;

    type Sink = SocketSink<R>;

    type Answer = SocketAnswer<R>;

    type Link = SocketLink<R>;

    type Clock = SteppedClock<SystemClock<R>>;

    type Draw = Words<R>;

    fn another(&self) -> Result<System<R>, NoMemory> {
        Ok(SystemOf {
            rt: self.rt.clone()?,
            alloc: self.alloc,
            members: Arc::try_clone(&self.members)?,
            hosts: Arc::try_clone(&self.hosts)?,
            own: Arc::try_clone(&self.own)?,
            newest: Arc::try_clone(&self.newest)?,
            limits: self.limits,
            permits: Arc::try_clone(&self.permits)?,
            sessions: Arc::try_clone(&self.sessions)?,
            halt: Arc::try_clone(&self.halt)?,
            heads: Arc::try_clone(&self.heads)?,
            clock: self.clock.copy(self.rt.clone()?)?,
            tap: match &self.tap {
                Some(tap) => Some(Arc::try_clone(tap)?),
                None => None,
            },
        })
    }

    fn link(&self) -> Result<SocketLink<R>, NoMemory> {
        let members = Arc::try_clone(&self.members)?;
        Ok(SocketLink::new(self.rt.clone()?, members, self.limits))
    }

    fn clock(&self) -> Result<SteppedClock<SystemClock<R>>, NoMemory> {
        let clock = self.clock.copy(self.rt.clone()?)?;
        let tally = match &self.tap {
            Some(tap) => Some(tap.tallies.tally()?),
            None => None,
        };
        Ok(SteppedClock::new(clock, tally))
    }

    fn ticker_draw(&self) -> Option<Words<R>> {
        Some(Words::System(SystemDraw::new(self.rt.clone().ok()?).ok()?))
    }

    fn draw(&self) -> Option<Words<R>> {
        Some(Words::Seeded(SeededDraw::new(&self.rt).ok()?))
    }

    // Each is asked some five seconds apart at most.
    fn one_answers(&self) -> bool {
        (1..=u32::try_from(self.hosts.as_slice().len()).unwrap_or(u32::MAX)).any(|number| self
            .members
            .health(number)
            == Health::Up)
    }

    fn own(&self) -> Result<Arc<OwnMember, Global>, NoMemory> {
        Ok(Arc::try_clone(&self.own)?)
    }

    fn newest(&self) -> Option<Header> {
        self.newest.header(&self.rt)
    }

    // Those that are up are called first, in the order of their numbers.
    fn status(&self, body: &[u8]) -> Result<Option<Ready>, NoMemory> {
        let Ok(until) = Until::after(&self.rt, self.limits.ask) else {
            return Ok(None);
        };
        for health in [Health::Up, Health::Suspect] {
            let mut number: u32 = 0;
            for host in self.hosts.as_slice() {
                number = number.saturating_add(1);
                if self.members.health(number) == health {
                    if let Some(ready) = self.passed(number, host.as_slice(), body, until)? {
                        return Ok(Some(ready));
                    }
                }
            }
        }
        Ok(None)
    }

    fn open(
        &self,
        connection: Client,
        clock: &SteppedClock<SystemClock<R>>,
    ) -> Result<(SocketSource<R>, SocketSink<R>), NoMemory> {
        let connection = match (&self.tap, clock.tally()) {
            (Some(tap), Some(tally)) => connection.counted(tap.tallies.begin(&self.rt, tally)?),
            _ => connection,
        };
        let permits = Arc::try_clone(&self.permits)?;
        let halt = Arc::try_clone(&self.halt)?;
        let (source, sink) = ends_of(
            self.alloc,
            self.rt.clone()?,
            self.rt.clone()?,
            connection,
            permits,
        )?;
        let heads = Arc::try_clone(&self.heads)?;
        Ok((source.until(halt).telling(heads), sink))
    }

    fn close(&self, source: SocketSource<R>, sink: SocketSink<R>) {
        let _ = linger(source, sink);
    }

    fn shown(&self, lookout: Lookout) {
        if let Some(tap) = &self.tap {
            tap.shown(&self.rt, lookout);
        }
    }
}
