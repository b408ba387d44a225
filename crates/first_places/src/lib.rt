//! Where a list that grows first tells something, found in logarithmic time: numbers that are kept for pairs of numbers, and numbers
//! that are kept for numbers; and counts for pairs.
#![tactic(auto)]

mod counts;
mod places;
mod values;

pub use counts::Counts;
pub use places::Places;
pub use values::Values;
