//! The calls of a proxy that are out, by number, found in logarithmic time.
#![tactic(auto)]

mod calls;
mod counts;

pub use calls::Calls;
pub use core_model::{CallKind, OutCall, OutJob};
