//! A namespace: every key of a request is sent with a prefix, and every key of what comes back loses it.
//!
//! The rules are those of etcd's package `clientv3/namespace`: a client sees the keys with the prefix as all there are.
#![tactic(auto)]

mod fault;
mod laws;
mod namespace;
mod prefix;
mod unwrap;
mod wrap;

pub use fault::KeyFault;
pub use laws::{
    foreign_keys_are_named, worked_prefixes, wrapped_keys_come_back, wrapped_ranges_have_their_keys,
};
pub use namespace::Namespace;
pub use prefix::{key_under, prefix_end, range_under};
