//! What is decided when a request is asked of a proxy: whether it is refused, whether it is a plain read, a write, or answered from
//! held records, and which stage it waits in.
#![tactic(auto)]

mod asking;
mod held;
mod refusals;
mod reserved;
mod writes;

pub use asking::{asked_at, call_stage, is_leased_read};
pub use held::held_body;
pub use refusals::refusal_of;
pub use reserved::touches;
pub use writes::{writes_keys, writes_too_much};
