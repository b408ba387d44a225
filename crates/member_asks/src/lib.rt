//! Asking a member of a cluster whether it answers: one call for how many records one key has, which needs the agreement of the cluster,
//! and what its reply says of the cluster's history; and the call for its own status, which clients may make.
#![tactic(auto)]

mod call;
mod pass;
mod standing;

pub use call::{AskFault, ask};
pub use pass::{Passed, STATUS_LIMIT, pass_status};
pub use standing::Standing;
