//! A message of a watch as it goes from the machine to its client: one watch's own, or one that many watches share, of which its text
//! may be written once for all of them.
#![tactic(auto)]

mod message;
mod told;

pub use told::Told;
