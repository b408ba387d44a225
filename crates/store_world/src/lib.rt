//! The replay store: an etcd store over an index of what its compaction keeps, which answers requests, serves watches and lets
//! leases expire.
//!
//! Its contract is the relation `Stands`, that a store stands for a state of the definitions. It stands for each state with
//! a history of which its index holds what is kept: so for many, once it was compacted.
#![tactic(auto)]

mod followed;
mod laws;
mod lease_requests;
mod leases;
mod members;
mod requests;
mod run;
mod store;
mod table;
mod watches;

pub use laws::{states_of_a_store_agree, stores_stand_for_states};
pub use store::Store;
pub use store_model::StoreFault;
