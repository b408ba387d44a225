//! The sockets of clients as what the program meets outside: the host that accepts them, the two ends of an accepted connection, and by
//! what a process is told to serve nobody any more. They report nothing of what they carry, and count their failures. What the bytes are
//! is said by who reads and writes them, by marks, and isn't looked for here.
//!
//! Every wait for a client has a limit. How many connections there may be is reported on the standard error, and why the host listens or accepts no
//! more. Each line begins with its time and its level.
//! What connections do is counted where that is wanted, each by words of its own.
#![tactic(auto)]

mod budget;
mod connection;
mod door;
mod halt;
mod heads;
mod host;
mod phase;
mod sink;
mod source;
mod stepped;
mod tallies;
mod tally;

pub use budget::Budget;
pub use connection::{ends_of, ends_within, linger};
pub use door::{Client, Door};
pub use halt::Halt;
pub use heads::Heads;
pub use host::SocketHost;
pub use sink::SocketSink;
pub use source::SocketSource;
pub use stepped::SteppedClock;
pub use tallies::{Counted, Counts, Replies, Tallies};
pub use tally::Tally;
