ghost use Rattle.std.specs.Prelude.{◌≡◌, None, IsOk};
ghost use Rattle.std.specs.Io.{ReadsAtMost};

use crate::members::Members;
use crate::traffic::Traffic;
use outside::{Failed, ReadMark, Source};
use socket_limits::{LinkLimits, TRIES, Until, time};
use std::alloc::Global;
use std::io::{ErrorKind, Read};
use std::net::{Net, TcpStream};
use std::rt::Clock as Times;
use std::sync::{Arc, Wait};
use std::time::Duration;
use std::{io, thread};

/// A message of which more bytes came is large.
const LARGE_BYTES: u64 = 1_048_576;

/// How long a stream waits for another one's large message, in milliseconds.
const WAIT_MS: u64 = 30_000;

/// How long one rests that isn't to be begun again at once, in so many pieces of so many milliseconds: a core opens a stream that was cut again,
/// and one that always ends at once would turn for ever.
const PIECES: u32 = 4;

const PIECE_MS: u64 = 250;

/// An answer that comes as long as the member sends. Of all those of a process one at a time goes on with a message that is large. Where it said nothing for five seconds it fails if its member is down, and it fails
/// behind ten minutes of silence in any case.
#[derive(Drop)]
pub struct StreamAnswer<R: Drop> {
    pub(crate) rt: R,
    pub(crate) members: Arc<Members, Global>,
    pub(crate) limits: LinkLimits,
    /// The member that it comes from.
    pub(crate) member: u32,
    /// The number of the stream.
    pub(crate) stream: u64,
    /// Its range, and how many messages came.
    pub(crate) traffic: Arc<Traffic, Global>,
    /// How many bytes came since the last message, and whether it holds the permit for a large one.
    pub(crate) came: u64,
    pub(crate) holds: bool,
    /// It has the limit of silence.
    pub(crate) socket: Arc<TcpStream, Global>,
    /// When the last bytes came, by `time`.
    pub(crate) heard: u64,
    pub(crate) faults: u64,
}

impl<R: Net<Stream = TcpStream> + Times + Wait + Drop> StreamAnswer<R> {
    // Whether more may come from a stream that is silent.
    fn goes_on(&self) -> bool {
        let (Ok(now), Ok(member)) = (time(&self.rt), self.members.member(self.member)) else {
            return false;
        };
        now.saturating_sub(self.heard) < self.limits.cut && !member.is_down()
    }

    // Takes the permit for a large message before more of one is read. Meanwhile it is no silence that nothing comes.
    fn hold(&mut self) -> io::Result<()>
        ensures { self.new.faults ≡ self.old.faults }
    {
        if self.came > LARGE_BYTES && !self.holds {
            let until = Until::after(&self.rt, WAIT_MS)?;
            self.members.large.take(&self.rt, until)?;
            self.holds = true;
            self.heard = time(&self.rt).unwrap_or(self.heard);
        }
        Ok(())
    }

    /// Its last message was heard, or it ends.
    pub(crate) fn release(&mut self)
        ensures { self.new.faults ≡ self.old.faults }
    {
        if self.holds {
            self.members.large.give();
        }
        self.holds = false;
        self.came = 0;
    }

    // Rests before its stream is begun again, for as long as somebody wants it.
    fn rest(&self) {
        for _ in 0..PIECES {
            if self.members.streams.is_forgotten(&self.rt, self.stream) {
                return;
            }
            thread::sleep(&self.rt, Duration::from_millis(PIECE_MS));
        }
    }

    // Reads once, where a large message may go on.
    fn receive(&mut self, room: &mut [u8]) -> io::Result<usize>
        ensures count { ReadsAtMost result room.new }
        ensures faults { self.new.faults ≡ self.old.faults }
    {
        self.hold()?;
        let mut socket = &*self.socket;
        let count = socket.read(room)?;
        self.heard = time(&self.rt).unwrap_or(self.heard);
        self.came = self.came.saturating_add(count as u64);
        Ok(count)
    }
}

impl<R: Net<Stream = TcpStream> + Times + Wait + Drop> Source for StreamAnswer<R> {
    ghost left = { λ s. None };

    ghost faults = { λ s. s.faults };

    ghost reads = { λ old size came new. Unit {0} };

    fn read(&mut self, room: &mut [u8]) -> Result<usize, Failed> {
        for _ in 0..TRIES {
            match self.receive(room) {
                Ok(count) => return Ok(count),
                Err(error) if error.kind() == ErrorKind::Interrupted => {}
                Err(error) if error.kind() == ErrorKind::WouldBlock && self.goes_on() => {}
                Err(_) => break,
            }
        }
        self.faults = self.faults.saturating_add(1);
        Err(Failed)
    }

    /// A member that is gone is seen by the next read.
    fn check(&mut self) -> Result<(), Failed>
        ensures there { IsOk result }
        ensures stays { self.new ≡ self.old }
    {
        Ok(())
    }

    /// Silence is measured from the last bytes on, whatever they are. A large message is over once it was heard.
    fn mark(&mut self, mark: ReadMark) {
        match mark {
            ReadMark::Message => {
                self.traffic.came();
                self.release();
            }
            ReadMark::Rest => self.rest(),
            ReadMark::Head | ReadMark::Body | ReadMark::Request(_) => {}
        }
    }
}
