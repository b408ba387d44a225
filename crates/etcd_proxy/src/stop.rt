// A planned stop: what calls it, and what is done at it.

use crate::asker::Work;
use crate::revoke::Revoker;
use outside::SystemClock;
use sockets::Halt;
use state_file::Sessions;
use std::alloc::Global;
use std::io::{ErrorKind, Read};
use std::net::{Net, TcpStream};
use std::rt::Clock as Times;
use std::sync::{Arc, Wait};
use std::thread;
use std::time::Duration;

/// Requests that are being served have so many milliseconds, and then the ending of sessions so many.
const FINISHING_MS: u64 = 3_000;

const REVOKING_MS: u64 = 2_000;

/// How often it is looked whether the sessions have ended, in milliseconds.
const LOOK_MS: u64 = 5;

/// Who has a server stop once an input has ended.
#[derive(Drop)]
pub(crate) struct Ender<R: Drop, I: Drop> {
    pub(crate) rt: R,
    pub(crate) input: I,
    pub(crate) halt: Arc<Halt, Global>,
}

impl<R: Net<Stream = TcpStream> + Wait + Drop, I: Read + Drop> Work for Ender<R, I> {
    /// What comes says nothing. An input that can't be read has ended.
    fn work(self) {
        let Ender { rt, input, halt } = self;
        let mut input = input;
        let mut room = [0u8; 64];
        for _ in rt.forever() {
            match input.read(&mut room) {
                Ok(0) => break,
                Ok(_) => {}
                Err(error) if error.kind() == ErrorKind::Interrupted => {}
                Err(_) => break,
            }
        }
        halt.stop(&rt);
    }
}

/// What is done at a stop.
#[derive(Drop)]
pub(crate) struct Leaving<R: Drop> {
    pub(crate) rt: R,
    pub(crate) halt: Arc<Halt, Global>,
    pub(crate) clock: SystemClock<R>,
    pub(crate) sessions: Arc<Sessions, Global>,
    /// One for each member.
    pub(crate) revokers: Vec<Revoker<R>>,
}

/// Who waits until the sessions have ended.
#[derive(Drop)]
pub(crate) struct Revoking<R: Drop> {
    rt: R,
    sessions: Arc<Sessions, Global>,
}

impl<R: Net<Stream = TcpStream> + Times + Wait + Eprint + Copy + Drop> Leaving<R> {
    /// Waits until what is asked has its reply, and gives who is to end the process's sessions then. The clock has leapt behind whatever they
    /// were to last to, so that no step of the proxy is made any more with a session that the cluster ended earlier.
    pub(crate) fn finish(self) -> (Vec<Revoker<R>>, Revoking<R>) {
        let Leaving {
            rt,
            halt,
            clock,
            sessions,
            revokers,
        } = self;
        halt.finish(&rt, FINISHING_MS);
        sessions.close(&rt);
        clock.leap();
        (revokers, Revoking { rt, sessions })
    }
}

impl<R: Net<Stream = TcpStream> + Times + Wait + Eprint + Copy + Drop> Revoking<R> {
    /// Waits until they have, or some while.
    pub(crate) fn wait(&self) {
        for _ in 0..REVOKING_MS / LOOK_MS {
            if self.sessions.left(&self.rt).is_none() {
                return;
            }
            thread::sleep(&self.rt, Duration::from_millis(LOOK_MS));
        }
    }
}
