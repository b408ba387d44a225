//! The machine of the small store's server, as definitions: a store of one member whose leases expire by the clock, and what a step of
//! it takes and answers. Each subject stands in a file of `specs/`; nothing here does work.
#![tactic(auto)]

mod deadline;
mod event;
mod worked;

pub use deadline::Deadline;
pub use event::{StoreEvent, StoreOutcome, StoreStepFault};
pub use worked::{worked_leases, worked_watches};
