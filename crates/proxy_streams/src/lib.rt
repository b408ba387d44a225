//! Streams of members, followed: each message of a stream is fed to a turn as it comes. What following a stream is stands in
//! `server_model`.
#![tactic(auto)]

mod feed;
mod follow;
mod next;

pub use follow::follow_stream;
pub use server_model::StreamEnd;
