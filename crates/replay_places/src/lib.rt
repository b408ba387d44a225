//! The proxies of a replay, over any machine of a proxy: what happens at each, what its lines gain, and where it is found.
#![tactic(auto)]

mod asking;
mod place;
mod places;
mod tickets;
mod turn;

pub use place::Place;
pub use places::Places;
pub use tickets::Tickets;
pub use turn::Turn;
