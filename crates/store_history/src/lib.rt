//! Reading a store's history: the record that changes leave, what a range of records is answered, and compares of records.
#![tactic(auto)]

mod compares;
mod events;
mod reads;
mod records;

pub use compares::holds_of;
pub use events::Batch;
pub use reads::{is_unsupported, range_body};
pub use records::after_changes;
