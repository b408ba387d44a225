//! The client streams of a proxy and its watches: watches of one range share a stream, each keeps its own next revision,
//! and a slow one waits in its own queue. Each call is its definition's function.
#![tactic(auto)]

mod batches;
mod broadcasts;
mod fault;
mod leavers;
mod members;
mod merging;
mod phases;
mod watches;

pub use broadcasts::Broadcasts;
pub use fault::WatchFault;
pub use watch_model::{Joined, StreamJob, StreamPhase, WatchPlace};
