//! The order of a proxy's due jobs, and which one is first: its session's call, then rescinds; then what is due longest, and of one
//! step calls that ask owners, the calls of requests by ticket, closings and openings of streams.
#![tactic(auto)]

mod first;
mod jobs;
mod parts;
mod places;

pub use first::{first_job, has_job};
pub use jobs::DueJob;
