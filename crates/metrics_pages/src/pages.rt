use crate::asked::{Asked, asked_of};
use etcd_types::NoMemory;
use http_talk::{Probe, RefusalForm, probed, receive};
use http_wire::{Head, Wire};
use metrics_text::{Content, Figures, metrics_text, page_text, reply_text};
use outside::write_whole;
use socket_limits::{ConnectionLimits, Permits};
use sockets::{Client, ends_within, linger};
use std::alloc::Global;
use std::net::{Net, TcpListener, TcpStream};
use std::rt::Clock as Times;
use std::sync::{Arc, Wait};
use std::time::Duration;
use std::{io, thread};

/// How long is paused after an accept that failed, in milliseconds.
const PAUSE: u64 = 100;

/// How long a client is waited for, in milliseconds.
const LIMITS: ConnectionLimits = ConnectionLimits {
    first_byte: 2_000,
    head: 2_000,
    body: 2_000,
    write: 10_000,
    linger: 200,
};

const NO_SUCH_PATH: &[u8] = b"{\"code\":5,\"message\":\"proxy: no such path\"}";

const NO_SUCH_METHOD: &[u8] = b"{\"code\":12,\"message\":\"proxy: method not allowed\"}";

/// Who knows what is shown.
pub trait Shows {
    /// What there is to tell now.
    fn figures(&mut self) -> Result<Figures, NoMemory>;

    /// Whether some member answered when it was asked last, or wasn't asked yet.
    fn one_answers(&self) -> bool;
}

/// What listens on this address.
pub fn listen<R: Net<Listener = TcpListener, Stream = TcpStream>>(
    rt: &R,
    alloc: Global,
    address: &str,
) -> io::Result<Arc<TcpListener, Global>> {
    Ok(Arc::new(alloc, TcpListener::bind(rt, address)?)?)
}

/// Who answers requests that come to a listener, one after the other. Several may share one.
#[derive(Drop)]
pub struct Pages<R: Drop, S: Drop> {
    rt: R,
    alloc: Global,
    version: &'static [u8],
    listener: Arc<TcpListener, Global>,
    permits: Arc<Permits, Global>,
    shows: S,
}

impl<R: Drop, S: Drop> Pages<R, S> {
    /// Who shows what `shows` knows of a server of this version.
    pub fn new(
        rt: R,
        alloc: Global,
        version: &'static [u8],
        listener: &Arc<TcpListener, Global>,
        shows: S,
    ) -> Result<Pages<R, S>, NoMemory> {
        Ok(Pages {
            rt,
            alloc,
            version,
            listener: Arc::try_clone(listener)?,
            permits: Arc::new(alloc, Permits::new(alloc, 1))?,
            shows,
        })
    }
}

impl<
    R: Net<Listener = TcpListener, Stream = TcpStream> + Times + Wait + Eprint + Copy + Drop,
    S: Shows + Drop,
> Pages<R, S> {
    // The reply to a request with this head.
    fn reply(&mut self, head: &Head) -> Result<Vec<u8>, NoMemory> {
        let alloc = self.alloc;
        let method = head.method.as_str().as_bytes();
        let (status, content, body) = match asked_of(method, head.path.as_slice()) {
            Asked::Metrics => {
                let figures = self.shows.figures()?;
                let text = metrics_text(alloc, self.version, &figures)?;
                (200, Content::Metrics, text)
            }
            Asked::Page => {
                let figures = self.shows.figures()?;
                let text = page_text(alloc, self.version, &figures)?;
                (200, Content::Page, text)
            }
            Asked::Health => {
                let ready = probed(alloc, Probe::Health, self.shows.one_answers())?;
                let text = Vec::from_slice(alloc, ready.body.as_slice())?;
                (ready.status, Content::Json, text)
            }
            Asked::NoSuchPath => (404, Content::Json, Vec::from_slice(alloc, NO_SUCH_PATH)?),
            Asked::NoSuchMethod => (405, Content::Json, Vec::from_slice(alloc, NO_SUCH_METHOD)?),
        };
        let is_head = method == b"HEAD".as_slice();
        reply_text(alloc, is_head, status, content, body.as_slice())
    }

    // Answers the request of a connection, and closes it.
    fn serve(&mut self, stream: TcpStream) -> Result<(), NoMemory> {
        let _ = stream.set_nodelay(true);
        let permits = Arc::try_clone(&self.permits)?;
        let client = Client::from(stream);
        let (mut source, mut sink) = ends_within(
            self.alloc, self.rt, self.rt, client, permits, LIMITS,
        )?;
        let mut wire = Wire::new(self.alloc)?;
        let form = RefusalForm::Mapping;
        if let Ok(Some(received)) = receive(self.alloc, form, &mut wire, &mut source, &mut sink) {
            if let Ok(text) = self.reply(&received.head) {
                let _ = write_whole(&mut sink, text.as_slice());
            }
        }
        let _ = linger(source, sink);
        Ok(())
    }

    /// Answers for as long as the process lives. A connection for which memory is wanting is closed.
    pub fn answer_all(self) {
        let mut pages = self;
        let rt = pages.rt;
        for _ in rt.forever() {
            match pages.listener.accept() {
                Ok((stream, _)) => {
                    let _ = pages.serve(stream);
                }
                Err(_) => thread::sleep(&rt, Duration::from_millis(PAUSE)),
            }
        }
    }
}
