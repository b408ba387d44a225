//! The acquires of a proxy, by key, and the one of them that is sent first: found in logarithmic time, however many are due or out.
#![tactic(auto)]

mod acquires;
mod dues;

pub use acquires::{Acquires, DueAcquire};
