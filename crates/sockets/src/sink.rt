ghost use Rattle.std.specs.Prelude.{◌≡◌, None};

use crate::connection::Shared;
use outside::{Failed, Sink, WriteMark};
use socket_limits::{TRIES, Until};
use std::alloc::Global;
use std::io;
use std::io::{ErrorKind, Write};
use std::marker::Model;
use std::rt::Clock as Times;
use std::sync::Arc;
use std::sync::atomic::Ordering::SeqCst;
use std::time::Duration;

/// Where a connection's bytes go. A write is taken whole within half a minute, or else fails.
#[derive(Drop)]
pub struct SocketSink<R: Drop> {
    pub(crate) rt: R,
    pub(crate) shared: Arc<Shared, Global>,
    /// The limit of time that the socket has for a write; zero where none was set.
    pub(crate) limit: Duration,
    /// An earlier write was taken in part alone.
    pub(crate) broken: bool,
    pub(crate) faults: u64,
}

impl<R: Drop> Model for SocketSink<R> {
    ghost use Rattle.outside.specs.Faults.{Counted};

    ghost Value = { Counted R };

    ghost view = { λ s. record { inner = s.rt; faults = s.faults } };
}

impl<R: Times + Drop> SocketSink<R> {
    // Writes once, within that time. The socket is told a limit only where it has another.
    fn send(&mut self, piece: &[u8], left: Duration) -> io::Result<usize>
        ensures faults { self.new.faults ≡ self.old.faults }
    {
        if left != self.limit {
            self.shared.stream.set_write_timeout(Some(left))?;
            self.limit = left;
        }
        let mut stream = &*self.shared.stream;
        stream.write(piece)
    }

    // Writes the bytes, and says how many of them are left.
    fn send_all(&mut self, piece: &[u8]) -> usize
        ensures faults { self.new.faults ≡ self.old.faults }
    {
        let limit = self.shared.limits.write;
        let Ok(until) = Until::after(&self.rt, limit) else {
            return piece.len();
        };
        self.shared
            .written
            .store(until.end.saturating_sub(limit), SeqCst);
        let mut left = Duration::from_millis(limit.max(1));
        let mut rest = piece;
        for _ in 0..TRIES {
            match self.send(rest, left) {
                Ok(count) if 0 < count && count <= rest.len() => rest = &rest[count..],
                Err(error) if error.kind() == ErrorKind::Interrupted => {}
                _ => break,
            }
            if rest.is_empty() {
                break;
            }
            match until.left(&self.rt) {
                Ok(time) => left = time,
                Err(_) => break,
            }
        }
        rest.len()
    }
}

impl<R: Times + Drop> Sink for SocketSink<R> {
    ghost written = { λ s. None };

    ghost faults = { λ s. s.faults };

    /// Where a front of the piece was taken alone, that is told, and each later write fails.
    fn write(&mut self, piece: &[u8]) -> Result<usize, Failed> {
        let left = if self.broken {
            piece.len()
        } else {
            self.send_all(piece)
        };
        if left > 0 {
            self.broken = true;
        }
        let done = piece.len().saturating_sub(left);
        if done > 0 || piece.is_empty() {
            return Ok(done);
        }
        self.faults = self.faults.saturating_add(1);
        Err(Failed)
    }

    /// A request that is replied to needs no permit any more. What is written is counted, where anything is.
    fn mark(&mut self, mark: WriteMark) {
        if let WriteMark::Reply(_) = mark {
            self.shared.release();
        }
        if let Some(tally) = self.shared.tally() {
            match mark {
                WriteMark::Continue => {}
                WriteMark::Reply(status) => tally.replied(status),
                WriteMark::Message => tally.told(),
                WriteMark::Events(count) => tally.sent(count),
            }
        }
    }
}
