//! The machine of one proxy: each event is handled as its definition says, and takes all memory before it changes anything.
#![tactic(auto)]

// What is never inlined here keeps a thread's stack small: docs/DECISIONS.md.

mod asking;
mod calls;
mod events;
mod figures;
mod proxy;
mod sending;
mod woken;
mod work;

pub use core_model::{CoreEvent, Job, Outcome, Settings, StepFault};
pub use figures::Figures;
pub use proxy::Core;
pub use woken::{WORKERS, lot_of_ticket};
