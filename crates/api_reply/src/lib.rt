//! Answers and the messages of watches as JSON, both ways: what is written for a client, and what a member of a cluster
//! wrote.
//!
//! The mapping is that of etcd's JSON gateway, in the strict form that `json_model` defines.
#![tactic(auto)]

mod bodies;
mod decode;
mod encode;
mod plain;
mod records;
mod responses;
mod sent;

pub use decode::{decode_item, decode_reply};
pub use encode::{encode_item, encode_reply};
pub use json_model::NotReply;
