//! The parts of a server, each in a thread of its own.
#![tactic(auto)]

mod carried;
mod ends;
mod further;
mod load;
mod lookout;
mod outfit;
mod probes;
mod threaded;

pub use ends::Ends;
pub use lookout::Lookout;
pub use thread_makers::Nothing;
pub use threaded::{Server, Threaded, spawner_of};
