//! What an etcd store is and does, as definitions: histories of revisions, records, ranges, transactions, leases,
//! compactions, watches, and the answer to each request.
//!
//! The definitions stand in `specs/`, one subject a file; the Rust types here are what they speak of. Nothing here does work.
#![tactic(auto)]

mod history;
mod lease;
mod store_fault;
mod watch;
mod worked;

pub use history::KeyChange;
pub use lease::Lease;
pub use store_fault::StoreFault;
pub use watch::OpenWatch;
pub use worked::worked_steps;
