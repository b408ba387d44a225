//! HTTP/1.1 over a source and a sink: requests and their replies, and the answers of a cluster's members.
//!
//! What is read depends on the bytes alone, in whatever pieces they come: `specs/` says of all the bytes ahead which
//! head, body or line comes next. What is written is exact. The rules are those of RFC 9112, as far as the gateway of
//! etcd and its clients use them.
#![tactic(auto)]

mod body;
mod buffer;
mod ends;
mod fault;
mod head;
mod heads;
mod limits;
mod lines;
mod message;
mod scan;
mod size;
mod turns;
mod wire;
mod written;

pub use fault::WireFault;
pub use limits::{BODY_LIMIT, FIELD_LIMIT, HEAD_LIMIT, LINE_LIMIT, limits_are_stated};
pub use message::{AnswerHead, Framing, Head};
pub use wire::Wire;
pub use written::{
    begin_chunks, end_chunks, write_bodiless_reply, write_call, write_chunk, write_continue,
    write_kept_call, write_reply,
};
