//! Connections tried over a turn of a test: over a core that nobody else steps. The core is a small one, which answers a
//! put at once and everything else at a later step, and whose watches end with their second message.
#![tactic(auto)]

mod alone;
mod healthy;
mod small;

pub use alone::Alone;
pub use healthy::Healthy;
pub use small::Core;

#[cfg(test)]
mod tests;
