//! The small store as a machine that many connections step: a store of one member whose leases expire by the clock. What a step of it
//! is stands in `shop_model`.
#![tactic(auto)]

mod deadlines;
mod ending;
mod followers;
mod kept;
mod laws;
mod lots;
mod machine;
mod watchers;

pub use laws::machines_stand_for_shops;
pub use lots::lot_of_watch;
pub use machine::StoreMachine;
pub use shop_model::{StoreEvent, StoreOutcome, StoreStepFault};
