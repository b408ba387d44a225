//! What the reads of a proxy stand on, as one value: the lease table and the waiting writes, the acquires, and the requests that are
//! known; and each step on it.
#![tactic(auto)]

mod acquires;
mod answers;
mod asking;
mod ends;
mod moment;
mod over;
mod reads;
mod sends;

pub use known_asks::{Asked, Asks, Stage, Verdict};
pub use lease_table::{Entry, LeaseTable};
pub use lease_txn::NotShape;
pub use moment::Moment;
pub use reads::Reads;
pub use revoke_core::Waits;
