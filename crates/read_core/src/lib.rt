//! Plain reads of a proxy: how one is decided, and what becomes of those that wait where an acquire or an owner write is no more.
#![tactic(auto)]

mod decisions;
mod readers;
mod records;
mod releases;
mod standing;

pub use decisions::{Decision, Unowned, decide, under};
pub use readers::{lose_reader, reader_changes};
pub use records::shown;
pub use releases::{release, release_at};
pub use standing::key_of;
