//! Ends of connections that vanished without a word: the system asks for them, and ends what they leave unanswered.

use libc::net::{
    IPPROTO_TCP, SO_KEEPALIVE, SOL_SOCKET, TCP_KEEPCNT, TCP_KEEPIDLE, TCP_KEEPINTVL,
    TCP_USER_TIMEOUT, setsockopt,
};
use std::net::TcpStream;
use std::os::fd::AsRawFd;

/// After so many seconds in which nothing came the other end is asked whether it is there, again each `PROBE_SECONDS`, and `PROBES`
/// times in all.
const QUIET_SECONDS: u32 = 60;

const PROBE_SECONDS: u32 = 10;

const PROBES: u32 = 3;

/// What isn't acknowledged within so many milliseconds ends the connection.
const UNHEARD_MS: u32 = 90_000;

/// An option's value, as the system takes it: an `int` at the front.
fn value(number: u32) -> [u8; 16] {
    let [a, b, c, d] = number.to_ne_bytes();
    [a, b, c, d, 0, 0, 0, 0, 0, 0, 0, 0, 0, 0, 0, 0]
}

/// Lets the system end the connection where its other end says nothing for a minute and a half, though it was asked. Where the system
/// refuses that, the connection stays as it was.
pub fn keep_lively(stream: &TcpStream) {
    let socket = stream.as_raw_fd();
    // The one unsafe block of the sources. What the C library asks of each call, that the option is one whose value holds no pointer and that the
    // length is within the value, is proved as each other condition is.
    unsafe {
        let _ = setsockopt(socket, SOL_SOCKET, SO_KEEPALIVE, &value(1), 4);
        let _ = setsockopt(socket, IPPROTO_TCP, TCP_KEEPIDLE, &value(QUIET_SECONDS), 4);
        let _ = setsockopt(socket, IPPROTO_TCP, TCP_KEEPINTVL, &value(PROBE_SECONDS), 4);
        let _ = setsockopt(socket, IPPROTO_TCP, TCP_KEEPCNT, &value(PROBES), 4);
        let _ = setsockopt(socket, IPPROTO_TCP, TCP_USER_TIMEOUT, &value(UNHEARD_MS), 4);
    }
}
