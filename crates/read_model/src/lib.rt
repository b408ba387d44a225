//! Plain reads of one proxy and what they wait for, as definitions: acquires, owner writes, and calls of their own. Each rule
//! stands in a file of `specs/` of its own.
//!
//! The types that the definitions speak of are declared here, and given on by the crates that work with them.
#![tactic(auto)]

mod acquire;
mod asked;
mod worked;

pub use acquire::Acquire;
pub use asked::{Asked, Stage, Verdict};
pub use worked::worked_reads;
