//! The streams of a process by their numbers, so that one that nobody wants any more ends though its member says nothing.

use crate::traffic::{StreamCount, Traffic, rank};
use etcd_types::NoMemory;
use std::alloc::Global;
use std::io;
use std::net::{Shutdown, TcpStream};
use std::sync::{Arc, Mutex, Wait};

/// So many numbers of streams that weren't begun yet are kept at most.
const FORGOTTEN: usize = 1_024;

/// A stream that was begun.
#[derive(Drop)]
struct Begun {
    number: u64,
    socket: Arc<TcpStream, Global>,
    is_wanted: bool,
    traffic: Arc<Traffic, Global>,
}

/// What is known of the streams.
#[derive(Drop)]
struct Table {
    begun: Vec<Begun>,
    // numbers that nobody wants any more and that weren't begun yet, and how many of them there were
    forgotten: Vec<u64>,
    count: usize,
}

/// The streams that all links of a process have begun. A number is never given to two of them.
#[derive(Drop)]
pub(crate) struct Streams {
    table: Mutex<Table>,
}

impl Table {
    // Whether nobody wants the stream any more, of which it was told before the stream was begun. That is said once.
    fn takes(&mut self, number: u64) -> bool {
        let before = self.forgotten.len();
        self.forgotten.retain(|other| *other != number);
        self.forgotten.len() < before
    }

    // Keeps the number of a stream that may still be begun, in place of the oldest where there are many.
    fn keep(&mut self, number: u64) {
        let place = self.count % FORGOTTEN;
        self.count = self.count.wrapping_add(1);
        match self.forgotten.get_mut(place) {
            Some(oldest) => *oldest = number,
            // one that finds no memory isn't kept: its stream then ends by itself
            None => {
                let _ = self.forgotten.push(number);
            }
        }
    }
}

impl Streams {
    /// None.
    pub(crate) fn new(alloc: Global) -> Streams {
        Streams {
            table: Mutex::new(Table {
                begun: Vec::new(alloc),
                forgotten: Vec::new(alloc),
                count: 0,
            }),
        }
    }

    /// Notes the socket of a stream and what comes on it, and says whether anybody still wants it.
    pub(crate) fn begin<R: Wait>(
        &self,
        rt: &R,
        number: u64,
        socket: &Arc<TcpStream, Global>,
        traffic: &Arc<Traffic, Global>,
    ) -> io::Result<bool> {
        let socket = Arc::try_clone(socket)?;
        let traffic = Arc::try_clone(traffic)?;
        let mut table = self.table.lock(rt);
        if table.takes(number) {
            return Ok(false);
        }
        let begun = Begun {
            number,
            socket,
            is_wanted: true,
            traffic,
        };
        table.begun.push(begun)?;
        Ok(true)
    }

    /// Whether nobody wants a stream that wasn't begun yet, or hasn't ended.
    pub(crate) fn is_forgotten<R: Wait>(&self, rt: &R, number: u64) -> bool {
        let table = self.table.lock(rt);
        for begun in table.begun.as_slice() {
            if begun.number == number {
                return !begun.is_wanted;
            }
        }
        table.forgotten.as_slice().contains(&number)
    }

    /// How many streams are begun.
    pub(crate) fn count<R: Wait>(&self, rt: &R) -> u64 {
        self.table.lock(rt).begun.len() as u64
    }

    /// The `most` streams on which the most messages came, the busiest first; none on which nothing came.
    pub(crate) fn busiest<R: Wait>(
        &self,
        rt: &R,
        alloc: Global,
        most: usize,
    ) -> Result<Vec<StreamCount>, NoMemory> {
        let mut busiest = Vec::new(alloc);
        let table = self.table.lock(rt);
        for begun in table.begun.as_slice() {
            rank(alloc, &mut busiest, most, &begun.traffic)?;
        }
        Ok(busiest)
    }

    /// A stream has ended.
    pub(crate) fn end<R: Wait>(&self, rt: &R, number: u64) {
        let mut table = self.table.lock(rt);
        table.begun.retain(|begun| begun.number != number);
    }

    /// Nobody wants a stream any more: its socket is shut down, so that who reads from it sees its end. The number of one that wasn't
    /// begun yet is kept.
    pub(crate) fn forget<R: Wait>(&self, rt: &R, number: u64) {
        let mut table = self.table.lock(rt);
        for begun in table.begun.as_mut_slice() {
            if begun.number == number {
                begun.is_wanted = false;
                let _ = begun.socket.shutdown(Shutdown::Both);
                return;
            }
        }
        table.keep(number);
    }
}
