//! What the items before a refused one tell: where each thing was told last, the store that they make, the newest header that a proxy was
//! given, and what a watch has taken. It is for explanations alone: the store is that of a replay, and nothing is promised but that it ends.
#![tactic(auto)]

mod given;
mod marks;
mod past;
mod traces;
mod watches;

pub use given::{Newest, newest_given};
pub use marks::{Kind, Mark, is_cancellation, mark_of};
pub use past::Past;
pub use traces::{
    Trace, asked_at, cancelled_at, first_in_life, last, last_in_life, mark_at, proxy_at,
};
pub use watches::{
    Watch, count_taken, event_behind, event_revision, is_created, message_at, next_of, start_of,
};
