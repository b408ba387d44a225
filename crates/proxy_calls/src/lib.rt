//! Calls of a proxy to the members of its cluster: one request, one call on the link, and what its answer says. What that is stands in
//! `server_model`.
#![tactic(auto)]

mod call;
mod hear;
mod kinds;

pub use call::{call_bytes, make_call};
pub use kinds::kind_of;
pub use server_model::CallFault;
