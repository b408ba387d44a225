//! The audit of a transcript, item by item: whether each keeps the rules behind those before it. It keeps an index of them, and of
//! the items themselves no more than is looked up later.
#![tactic(auto)]

mod audit;
mod compared;
mod made;
mod stored;

pub use audit::Audit;
pub use audit_model::{AuditFault, Summary};
