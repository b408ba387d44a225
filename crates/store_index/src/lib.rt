//! What a store keeps of its history, found by key: the versions of each key in an ordered map.
#![tactic(auto)]

mod changes;
mod ends;
mod index;
mod key_versions;
mod laws;
mod lease_keys;
mod leased;
mod listing;
mod packed_keys;
mod places;
mod reading;
mod versions;

pub use changes::Changes;
pub use index::Index;
pub use laws::listings_are_ranges;
pub use reading::left_now;
