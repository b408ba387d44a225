//! The transactions by which a proxy owns keys and writes behind their owners, and what the answers to them say.
//!
//! An ownership key is the leasing prefix followed by the key. It stands under the session of the proxy that owns the
//! key, and each write of the key by any proxy compares its create revision.
#![tactic(auto)]

mod asks;
mod claims;
mod fits;
mod guarded;
mod not_shape;
mod owner;
mod parts;
mod ranges;
mod revoke;
mod written;

pub use claims::{acquire, read_acquire};
pub use guarded::{
    guarded_write, guest_write, owner_write, range_write, shared_write, written_ranges,
};
pub use not_shape::NotShape;
pub use owner::{is_revoke, owned_key};
pub use proxy_model::{Claim, Owned, Owner, Written};
pub use revoke::{ask_revoke, read_guard, rescind};
pub use snapshot_reads::{Records, read_only};
pub use written::read_write;
