//! What the programs share that try a table: why it can't be tried, and how the parts of its rows are read.
#![tactic(auto)]

mod row;
mod wrong;

pub use row::{parts, read_body, read_text, text};
pub use wrong::Wrong;
