//! Laws of what a store keeps: two states that differ at most in what a compaction let a store drop give the same answers,
//! records, events and faults to every request, and what they then are is alike too.
#![tactic(auto)]

mod laws;

pub use laws::{events_by_kept, operations_by_kept, ranges_by_kept, steps_by_kept};
