//! What the items of a transcript give to clients and sessions, against the store that they make: replies with no call of their own,
//! what watches take, and sessions that expire; and the counts that are reported of a whole transcript.
#![tactic(auto)]

mod events;
mod floors;
mod given;
mod keys;
mod reads;
mod snapshots;
mod taken;
mod takes;
mod takings;
mod unsent;

pub use floors::too_early;
pub use given::Given;
pub use takes::takes_so;
pub use unsent::replies_so;
