//! What the JSON of the etcd API means: the JSON mapping of the etcd gRPC gateway, in this program's own strict form.
//!
//! `specs/` says which request a path and a body are, or which fault they have, which answer or watch message the bytes
//! of a member are, and which text is written for each. They speak of whole JSON values. Here stand the types that they
//! speak of, and the laws about them.
#![tactic(auto)]

mod extra;
mod fault;
mod fault_words;
mod limits;
pub mod names;
mod path;
pub mod reply_names;
mod rows;

pub use extra::{Extra, Reading};
pub use fault::{ApiFault, FieldFault, NotReply};
pub use limits::{DEPTH_MAX, NUMBER_MAX};
pub use names::Names;
pub use path::Path;
pub use rows::{
    camel_by_example, limits_are, replies_by_example, requests_by_example, written_by_example,
};
