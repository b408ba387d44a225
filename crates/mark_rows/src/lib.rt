//! Numbers found by marks, in the order of the marks: those from a mark on are found in logarithmic time, and what stands at one
//! mark is moved to another without memory.
#![tactic(auto)]

mod mark;
mod places;
mod rows;

pub use mark::Mark;
pub use rows::MarkRows;
