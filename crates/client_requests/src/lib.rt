//! What a proxy does with a client's request before its cache comes in: which it refuses, and how it passes others on.
#![tactic(auto)]

mod passing_on;
mod refusals;

pub use passing_on::{passed_on, replied};
pub use refusals::{lacks_key, names_session, refusal_of, reserved_lease, unserved, unsupported};
