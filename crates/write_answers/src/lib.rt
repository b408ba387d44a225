//! Answers to the calls of waiting writes, with the reads that they release. All memory is taken before anything changes.
#![tactic(auto)]

mod reach;
mod release;
mod seen;
mod steps;

pub use revoke_core::NotShape;
pub use steps::{Told, When, answer_call};
