//! The sessions that a process begins, and the file that keeps their numbers where one is named: the next process finds there the sessions
//! that were left, and ends them.
#![tactic(auto)]

mod state;

pub use state::Sessions;
