//! What the fields of a member's reply say, and those of a watch's message: the part of reading them that is about
//! fields, below statuses and bytes.
//!
//! Unknown fields are left aside. A field that stands under both its names is refused, as it has no one meaning.
#![tactic(auto)]

mod answers;
mod bodies;
mod events;
mod items;
mod known;
mod leases;
mod records;
mod refusals;
mod responses;

pub use answers::answer_in;
pub use items::item_in;
