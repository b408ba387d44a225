//! Whether two values of the etcd v3 API are the same in every part: answers and messages of watches.
//!
//! `==` of such values is what their types say of it. Here it is said once and for all that two values which compare as the
//! same are one value, and that a value compares as the same with itself.
#![tactic(auto)]

mod answers;
mod bodies;
mod laws;
mod lists;
mod messages;
mod records;

pub use answers::{same_answer, same_refusal, same_reply};
pub use bodies::same_body;
pub use laws::{each_compares_with_itself, what_compares_is_one};
pub use messages::{same_change, same_event, same_message};
pub use records::{same_bytes, same_header, same_kv, same_prev};
