//! A connection to the small store's server, as definitions: the requests among the bytes that were read, the steps of the store that
//! were made for them, and the bytes that were written. What speaks of bytes alone is `http_talk`'s, and what a step is `shop_model`'s.
#![tactic(auto)]

mod ends;
mod progress;

pub use ends::StoreEnd;
pub use progress::{Pushed, Stop};
