//! The unanswered writes of a proxy, and how they go on: behind the lease table they become owner writes and guest writes, ask
//! foreign owners to give their keys up, and wait. What this proxy gives up itself is sent from here too.
#![tactic(auto)]

mod answers;
mod gone;
mod losses;
mod notices;
mod passes;
mod places;
mod rests;
mod sends;
mod takes;
mod turns;
mod waits;

pub use answers::ReadAnswer;
pub use lease_table::{Entry, LeaseTable, Phase};
pub use lease_txn::NotShape;
pub use wait_model::{Due, DueKind, JobKind, Place, Settled};
pub use waits::Waits;
