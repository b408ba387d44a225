//! The refusals of a store: their codes and texts, and those that come before anything of a request runs.
#![tactic(auto)]

mod first;
mod texts;

pub use first::{OPERATIONS_LIMIT, first_refusal_of_txn};
pub use texts::{
    compacted_revision, duplicate_key, future_revision, key_not_found, key_not_provided,
    lease_exists, lease_not_found, too_many_operations, unsupported,
};
