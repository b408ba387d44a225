// Sessions are ended by calls to the members: those that processes before this one left, and at a stop this one's own.
use crate::asker::Work;
use etcd_types::code::NOT_FOUND;
use etcd_types::{Answer, Bytes, Request};
use member_links::SocketLink;
use outside::{CallKind, Link};
use proxy_calls::make_call;
use state_file::Sessions;
use std::alloc::Global;
use std::net::{Net, TcpStream};
use std::rt::Clock as Times;
use std::sync::{Arc, Wait};

/// So many sessions are ended at most.
const MOST: u32 = 1_000;

/// Who ends sessions by calls to one member.
#[derive(Drop)]
pub(crate) struct Revoker<R: Drop> {
    pub(crate) rt: R,
    pub(crate) alloc: Global,
    pub(crate) sessions: Arc<Sessions, Global>,
    pub(crate) link: SocketLink<R>,
    pub(crate) number: u32,
    pub(crate) host: Bytes,
}

/// Whether the member ended this session, or said that there is none.
fn is_ended<L: Link>(alloc: Global, link: &mut L, host: &[u8], member: u32, lease: u64) -> bool {
    let request = Request::Revoke { lease };
    match make_call(alloc, link, host, member, CallKind::Asks, &request) {
        Ok(Answer::Done(_)) => true,
        Ok(Answer::Refused(refusal)) => refusal.code == NOT_FOUND,
        Err(_) => false,
    }
}

impl<R: Net<Stream = TcpStream> + Times + Wait + Eprint + Copy + Drop> Revoker<R> {
    /// Ends all that are to be ended, as long as the member does it.
    pub(crate) fn end_all(&mut self) {
        for _ in 0..MOST {
            let Some(lease) = self.sessions.left(&self.rt) else {
                return;
            };
            if !is_ended(
                self.alloc,
                &mut self.link,
                self.host.as_slice(),
                self.number,
                lease,
            ) {
                return;
            }
            self.sessions.ended(&self.rt, lease);
        }
    }
}

impl<R: Net<Stream = TcpStream> + Times + Wait + Eprint + Copy + Drop> Work for Revoker<R> {
    fn work(self) {
        let mut revoker = self;
        revoker.end_all();
    }
}
