//! Watches that share streams, as definitions: what a proxy has of its client streams and watches, and what each call
//! does with them, one file of `specs/` a rule. The crates that keep the queues and the streams cite them in their
//! contracts, and the laws are over them. Nothing here does work.
//!
//! The types that the definitions speak of are declared here, and given on by the crates that work with them.
#![tactic(auto)]

mod place;
mod stream;

pub use place::WatchPlace;
pub use stream::{Joined, Stream, StreamJob, StreamPhase};
