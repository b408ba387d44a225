//! Connections to the small store, each in a thread of its own.
#![tactic(auto)]

mod carried;
mod ends;
mod outfit;
mod threaded;

pub use ends::ShopEnds;
use store_serve::StorePlace;
use thread_makers::Nothing;
pub use threaded::{Shops, ShopsOf, shops_of};

/// What starts no connection to a store. A command that serves none has it.
pub type NoShops<C> = Nothing<StorePlace, C>;
