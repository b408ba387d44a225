ghost use Rattle.std.specs.Prelude.{◌≡◌, ◌<◌, IsSome};
ghost use Rattle.std.specs.Arc.{arc_value};

use crate::budget::{Budget, Place};
use crate::tallies::Counted;
use etcd_types::Bytes;
use std::alloc::Global;
use std::io::Write;
use std::marker::Model;
use std::net::{Shutdown, TcpStream};
use std::sync::{Arc, Mutex, Wait};

/// A connection that a host accepted.
#[derive(Drop)]
pub struct Client {
    pub(crate) stream: TcpStream,
    /// Where it counts as one of those that there may be.
    pub(crate) place: Option<Place>,
    /// What is counted of it, where anything is.
    pub(crate) counted: Option<Counted>,
}

impl Client {
    /// The same connection, of which this is counted.
    pub fn counted(self, counted: Counted) -> Client {
        Client {
            counted: Some(counted),
            ..self
        }
    }
}

impl From<TcpStream> for Client {
    /// A connection that is counted nowhere.
    fn from(stream: TcpStream) -> Client {
        Client {
            stream,
            place: None,
            counted: None,
        }
    }
}

/// So many connections that were refused stay open, so that what their clients still send takes back nothing of what they were told.
const REFUSED: usize = 16;

/// The last connections that were refused, and how many there were.
#[derive(Drop)]
struct Refused {
    sockets: Vec<TcpStream>,
    count: usize,
}

impl Refused {
    // Keeps a connection in place of the oldest, which is closed.
    fn keep(&mut self, stream: TcpStream) {
        let place = self.count % REFUSED;
        self.count = self.count.wrapping_add(1);
        match self.sockets.get_mut(place) {
            Some(oldest) => *oldest = stream,
            None => {
                let _ = self.sockets.push(stream);
            }
        }
    }
}

/// What lets connections in as long as there is room, and tells others that there is none.
#[derive(Drop)]
pub struct Door {
    budget: Arc<Budget, Global>,
    // what a client is told for which there is no room
    refusal: Bytes,
    refused: Mutex<Refused>,
}

/// It is seen as how many connections it lets in at once.
impl Model for Door {
    ghost use Rattle.std.specs.Prelude.{ℕ};

    ghost Value = { ℕ };

    ghost use Rattle.std.specs.Arc.{arc_value};

    ghost view = { λ d. arc_value d.budget };
}

impl Door {
    /// One that lets in as many as there may be, and tells others this.
    pub fn new(alloc: Global, budget: Arc<Budget, Global>, refusal: Bytes) -> Door
        ensures { result ≡ arc_value budget }
    {
        Door {
            budget,
            refusal,
            refused: Mutex::new(Refused {
                sockets: Vec::new(alloc),
                count: 0,
            }),
        }
    }

    /// How many may be in at once.
    pub(crate) fn most(&self) -> u64
        ensures { result ≡ self.now }
    {
        self.budget.most()
    }

    /// Lets a connection in, or refuses it.
    pub(crate) fn admit<R: Wait>(&self, rt: &R, stream: TcpStream) -> Option<Client>
        ensures { IsSome result → 0 < self.now }
    {
        match Place::take(&self.budget) {
            Some(place) => Some(Client {
                stream,
                place: Some(place),
                counted: None,
            }),
            None => {
                self.refuse(rt, stream);
                None
            }
        }
    }

    // Tells a client that there is no room. The system takes so little of a new connection at once.
    fn refuse<R: Wait>(&self, rt: &R, stream: TcpStream) {
        let mut socket = &stream;
        let _ = stream.set_nonblocking(true);
        let _ = socket.write(self.refusal.as_slice());
        let _ = stream.shutdown(Shutdown::Write);
        self.refused.lock(rt).keep(stream);
    }
}
