//! What is sent for a proxy's due job: its request under the namespace, made before anything of the proxy changes.
#![tactic(auto)]

mod calls;
mod sendings;
mod streams;

pub use due_order::{DueJob, first_job, has_job};
pub use sendings::{ToSend, to_send};
