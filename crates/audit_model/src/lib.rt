//! The rules that a true transcript keeps, as definitions: what must hold of each item behind those before it, which fault names the
//! first item that breaks a rule, and what is reported of a transcript that keeps them all. No body here does work; `specs/` has the
//! definitions, a file a rule, and here stand the few types that they speak of.
#![tactic(auto)]

mod ending;
mod fault;
mod summary;
mod worked;

pub use ending::AuditEnding;
pub use fault::{AuditFault, AuditRefusal};
pub use summary::Summary;
pub use worked::{worked_orders, worked_reads, worked_watches};
