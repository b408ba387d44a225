//! A transcript that comes in pieces: bytes are cut into lines, lines are counted and read, and each item is taken by the audit, up to
//! the first line that is refused.
#![tactic(auto)]

mod laws;
mod lines;
mod reading;
mod refused;
mod source;
mod stop;

pub use audit_model::{AuditEnding, AuditFault, AuditRefusal, Summary};
pub use laws::audits_are_exact;
pub use source::{audit_kept, audit_source};
pub use stop::AuditStop;
