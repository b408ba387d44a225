//! What the items of a transcript tell of an item behind them: whether it is in order, what was asked under a ticket, and what was
//! answered and pushed. It is looked up in an index of the items.
#![tactic(auto)]

mod calls;
mod calls_told;
mod index;
mod kept;
mod lives;
mod lives_told;
mod order;
mod pairs;
mod streams;
mod streams_told;
mod sums;
mod tickets;

pub use index::Index;
pub use order::{about, fits_behind};
