//! What is told on the standard error of requests' heads: that they are of another version of HTTP, and so refused, and that they name a user,
//! which isn't passed on. Nothing else comes of it. The first piece of a connection's first request is looked at: who sends such heads sends them
//! from the first request on.

use socket_limits::{Pace, line_time};
use std::rt::Clock as Times;
use std::sync::atomic::AtomicU64;
use std::sync::atomic::Ordering::SeqCst;

/// Between two lines of a kind are at least so many milliseconds.
const HOUR_MS: u64 = 3_600_000;

/// The name of the field in which a user is named, in lower case (RFC 9110, section 11.6.2).
const USER: &[u8] = b"authorization:";

/// What was seen of all connections of a process.
#[derive(Drop)]
pub struct Heads {
    // how many requests of another version came since that was told
    others: AtomicU64,
    versions: Pace,
    users: Pace,
}

/// The first line, without its end, and what follows it. Nothing where it didn't come whole.
fn first_line(bytes: &[u8]) -> Option<(&[u8], &[u8])> {
    let end = bytes.iter().position(|byte| *byte == b'\n')?;
    let (line, rest) = (bytes.get(..end)?, bytes.get(end + 1..)?);
    Some((line.strip_suffix(b"\r".as_slice()).unwrap_or(line), rest))
}

/// Whether a request line names a version of HTTP other than 1.1.
fn is_other(line: &[u8]) -> bool {
    let version = line.rsplit(|byte| *byte == b' ').next().unwrap_or(line);
    version.starts_with(b"HTTP/") && version != b"HTTP/1.1".as_slice()
}

fn is_named(line: &[u8], name: &[u8]) -> bool {
    match line.get(..name.len()) {
        Some(front) => front.eq_ignore_ascii_case(name),
        None => false,
    }
}

/// Whether a field of these, up to the empty line behind them, names a user.
fn names_user(fields: &[u8]) -> bool {
    for line in fields.split(|byte| *byte == b'\n') {
        if line.is_empty() || line == b"\r".as_slice() {
            return false;
        }
        if is_named(line, USER) {
            return true;
        }
    }
    false
}

impl Heads {
    /// Nothing was seen yet.
    pub fn new() -> Heads {
        Heads {
            others: AtomicU64::new(0),
            versions: Pace::new(),
            users: Pace::new(),
        }
    }

    /// Looks at the first piece of a request.
    pub(crate) fn look<R: Times + Eprint>(&self, rt: &R, piece: &[u8]) {
        if let Some((line, fields)) = first_line(piece) {
            if is_other(line) {
                self.tell_other(rt);
            } else if names_user(fields) {
                self.tell_user(rt);
            }
        }
    }

    // A request of another version came.
    fn tell_other<R: Times + Eprint>(&self, rt: &R) {
        self.others.fetch_add(1, SeqCst);
        if self.versions.is_due(rt, HOUR_MS) {
            let when = line_time(rt);
            let count = self.others.swap(0, SeqCst);
            let _ = eprintln!(rt;
                "{when:.3} WARN etcd_proxy: {count} requests were refused, since their version isn't HTTP/1.1"
            );
        }
    }

    fn tell_user<R: Times + Eprint>(&self, rt: &R) {
        if self.users.is_due(rt, HOUR_MS) {
            let when = line_time(rt);
            let _ = eprintln!(rt;
                "{when:.3} WARN etcd_proxy: requests carry Authorization, which isn't passed on: this proxy has no user"
            );
        }
    }
}
