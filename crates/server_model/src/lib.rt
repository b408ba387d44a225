//! What the parts of a server do that run beside one another: a connection's dialog, a worker's calls, a stream that is followed, the ticker.
//! Definitions, and the types that they speak of.
#![tactic(auto)]

mod ends;
mod fault;
mod progress;

pub use ends::{PartEnd, SessionEnd, StreamEnd, StreamStop, WorkEnd};
pub use fault::{CallFault, TurnFault};
pub use http_talk::{Received, Refused};
pub use progress::{Attempt, Stop, Taken};
