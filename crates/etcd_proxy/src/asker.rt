// Who asks the members whether they answer, each in a thread of its own.

use crate::newest::Newest;
use crate::revoke::Revoker;
use etcd_types::code::{INVALID_ARGUMENT, PERMISSION_DENIED};
use etcd_types::{Bytes, List, NoMemory};
use member_asks::{AskFault, Standing, ask};
use member_links::{Asked, Members, SocketLink};
use socket_limits::{LinkLimits, line_time};
use sockets::Halt;
use state_file::Sessions;
use std::alloc::Global;
use std::net::{Net, TcpStream};
use std::rt::Clock as Times;
use std::sync::{Arc, Wait};
use std::thread::Threads;
use std::{io, thread};

/// What all askers share.
#[derive(Drop)]
pub(crate) struct Shared {
    members: Arc<Members, Global>,
    limits: LinkLimits,
    sessions: Arc<Sessions, Global>,
    newest: Arc<Newest, Global>,
    halt: Arc<Halt, Global>,
}

impl Shared {
    /// Askers of these members, which let a server serve nobody any more where the cluster has another history.
    pub(crate) fn new(
        members: Arc<Members, Global>,
        limits: LinkLimits,
        sessions: Arc<Sessions, Global>,
        newest: Arc<Newest, Global>,
        halt: Arc<Halt, Global>,
    ) -> Shared {
        Shared {
            members,
            limits,
            sessions,
            newest,
            halt,
        }
    }
}

/// What a thread of its own does.
pub(crate) trait Work: Drop {
    fn work(self);
}

/// Has a thread of its own do each of these. Where none can be made, it is told why.
pub(crate) fn begin_all<R: Threads + Times + Eprint, W: Work + Send + 'static>(
    rt: &R,
    works: Vec<W>,
) -> Result<(), NoMemory> {
    for work in works {
        if let Err(error) = thread::spawn(rt, move || work.work()) {
            let when = line_time(rt);
            let error = io::Error::from(error);
            let _ = eprintln!(rt; "{when:.3} ERROR etcd_proxy: can't start a thread: {error}");
            return Err(NoMemory);
        }
    }
    Ok(())
}

/// Who asks one member. It makes no step of the proxy's.
#[derive(Drop)]
pub(crate) struct Asker<R: Drop> {
    rt: R,
    alloc: Global,
    shared: Arc<Shared, Global>,
    // who ends sessions by calls to the same member, and has what is needed to ask it
    revoker: Revoker<R>,
}

impl<R: Net<Stream = TcpStream> + Times + Wait + Eprint + Copy + Drop> Asker<R> {
    // Asks once. For want of memory that says nothing. A cluster that wants to know of a user refuses the asking, in which nothing else is
    // wrong, with the codes of an argument or of a permission.
    fn ask_once(&mut self) {
        let before = self.shared.newest.standing(&self.rt);
        let number = self.revoker.number;
        let told = ask(
            self.alloc,
            &mut self.revoker.link,
            self.revoker.host.as_slice(),
            number,
        );
        let came = match told {
            Ok(_) => Asked::Well,
            Err(AskFault::Refused(INVALID_ARGUMENT | PERMISSION_DENIED)) => Asked::Barred,
            Err(AskFault::Refused(_) | AskFault::Lost) => Asked::InVain,
            Err(AskFault::NoMemory) => return,
        };
        self.shared.members.asked(&self.rt, number, came);
        if let Ok(standing) = told {
            self.compare(before, standing);
            self.revoker.end_all();
        }
    }

    // Keeps how far the history is, or ends the server where it is another one than it was before this was asked for.
    fn compare(&self, before: Option<Standing>, standing: Standing) {
        match before {
            Some(before) if standing.is_another(&before) => self.halt(&before, &standing),
            _ => self.shared.newest.add(&self.rt, standing),
        }
    }

    // Another store stands behind the members' addresses: what was cached, and what watches were told, was of the one before.
    fn halt(&self, before: &Standing, standing: &Standing) {
        if !self.shared.halt.is_due() {
            let when = line_time(&self.rt);
            let number = self.revoker.number;
            let (cluster, revision, term) = (standing.cluster, standing.revision, standing.term);
            let (old, seen, former) = (before.cluster, before.revision, before.term);
            let _ = eprintln!(self.rt;
                "{when:.3} ERROR etcd_proxy: member {number} has another history: cluster {cluster} at revision {revision} in term {term}, behind cluster {old} at revision {seen} in term {former}"
            );
        }
        self.shared.halt.call(&self.rt);
    }
}

impl<R: Net<Stream = TcpStream> + Times + Wait + Eprint + Copy + Drop> Work for Asker<R> {
    /// Asks for as long as the process lives.
    fn work(self) {
        let mut asker = self;
        let rt = asker.rt;
        for _ in rt.forever() {
            asker.ask_once();
            asker.shared.members.rest(&rt, asker.revoker.number);
        }
    }
}

/// Who ends sessions by calls to each of these hosts, that of member 1 first.
pub(crate) fn revokers_of<R: Copy + Drop>(
    rt: R,
    alloc: Global,
    hosts: &List<Bytes>,
    shared: &Shared,
) -> Result<Vec<Revoker<R>>, NoMemory> {
    let mut revokers = Vec::new(alloc);
    let mut number: u32 = 0;
    for host in hosts.as_slice() {
        number = number.saturating_add(1);
        let members = Arc::try_clone(&shared.members)?;
        revokers.push(Revoker {
            rt,
            alloc,
            sessions: Arc::try_clone(&shared.sessions)?,
            link: SocketLink::new(rt, members, shared.limits),
            number,
            host: host.copy(alloc)?,
        })?;
    }
    Ok(revokers)
}

/// Who asks each of these hosts, that of member 1 first.
pub(crate) fn askers_of<R: Copy + Drop>(
    rt: R,
    alloc: Global,
    hosts: &List<Bytes>,
    shared: &Arc<Shared, Global>,
) -> Result<Vec<Asker<R>>, NoMemory> {
    let mut askers = Vec::new(alloc);
    for revoker in revokers_of(rt, alloc, hosts, shared)? {
        askers.push(Asker {
            rt,
            alloc,
            shared: Arc::try_clone(shared)?,
            revoker,
        })?;
    }
    Ok(askers)
}
