//! Threads that are made one after another by a thread of its own, each with what it works with, and things that are handed from one thread
//! to another.
#![tactic(auto)]

mod duty;
mod handover;
mod job;
mod nothing;
mod open;

pub use duty::Duty;
pub use handover::Handover;
pub use job::{Ask, Desk, Equips, Maker, Work, begin_making};
pub use nothing::Nothing;
pub use open::Open;
