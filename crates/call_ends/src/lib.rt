//! The end of a client's own call: the request whose call it is has its reply, or its call is due again.
#![tactic(auto)]

mod callers;
mod losses;

pub use callers::tell_caller;
pub use losses::{lose_caller, refuse_caller};
