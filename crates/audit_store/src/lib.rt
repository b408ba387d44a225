//! The store of an audit: an etcd store over an index of its whole history, which answers requests, serves watches and lets leases
//! expire. A compaction drops nothing of the index, since a watch may take events that were compacted since.
//!
//! Its contract is the relation `Stands`, that a store stands for a state of the definitions: for each with a history that its index
//! holds.
#![tactic(auto)]

mod events;
mod laws;
mod lease_requests;
mod leases;
mod members;
mod reads;
mod requests;
mod run;
mod store;
mod table;
mod watches;

pub use laws::{states_of_a_store_agree, stores_stand_for_states};
pub use store::Store;
pub use store_model::StoreFault;
