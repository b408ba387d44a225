//! Reading a store by its index: records, ranges, what a range request is answered, compares and events, each for every
//! history of which the index holds what is kept.
//!
//! A call that takes `made` reads the history with the changes that the running request made so far as its last revision.
#![tactic(auto)]

mod compares;
mod events;
mod places;
mod reads;
mod records;

pub use compares::all_hold;
pub use events::watch_events;
pub use reads::read;
pub use records::{latest, record_now, records_seen};
