//! Requests as JSON, both ways: what a client asks by a path and a body, and the same written for a call to a cluster.
//!
//! The mapping is that of etcd's JSON gateway, in the strict form that `json_model` defines.
#![tactic(auto)]

// A function that is never inlined here has its frame only while it runs: what a thread's stack once reached stays in memory as long as the
// thread, and one into which others are inlined holds the frames of all of them at once.

mod decode;
mod encode;
mod fields;
mod paths;
mod plain;
mod transactions;

pub use decode::{decode_call, decode_request};
pub use encode::encode_request;
pub use json_model::ApiFault;
