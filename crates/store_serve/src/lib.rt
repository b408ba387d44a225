//! Connections of clients to the small store, served over its hub. What a connection's dialog is stands in `shop_dialog`, and what a step of
//! the store is in `shop_model`.
#![tactic(auto)]

mod ends;
mod exchange;
mod place;
mod reply;
mod serve;
mod shop;
mod watch;

pub use place::StorePlace;
pub use serve::serve_store;
pub use shop_dialog::StoreEnd;
pub use store_machine::{StoreEvent, StoreMachine, StoreOutcome, StoreStepFault};
