//! Ownership, as definitions: the entries of one proxy, its unanswered writes, and what these wait for. Each rule stands in a
//! file of `specs/` of its own. Nothing here does work but the list of what a write found, which changes in place.
//!
//! The types that the definitions speak of are declared here, and given on by the crates that work with them.
#![tactic(auto)]

mod due;
mod found;
mod sending;
mod wait;
mod worked;
mod write;

pub use due::{Due, DueCall, DueKind, JobKind, Place};
pub use found::{Asking, Found, FoundList, is_asked_as};
pub use sending::Sending;
pub use wait::{Settled, WaitCall, WaitJob};
pub use worked::{worked_sendings, worked_steps};
pub use write::{Write, WriteStage};
