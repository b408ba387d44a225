//! The steps of a proxy's unanswered writes that are about one write or one key: how a write is handed in, which of their calls
//! is due first, what a call sends, what becomes of the entries of a write that is over, and what a message of the leasing stream
//! says. The list of the writes is kept above.
#![tactic(auto)]

mod asked;
mod due;
mod ends;
mod entries;
mod failed;
mod jobs;
mod left;
mod notices;
mod owners;
mod places;
mod stages;

pub use asked::new_write;
pub use due::first_call;
pub use ends::take_lefts;
pub use entries::{Fate, fate_of, settle_owned};
pub use failed::fail;
pub use jobs::{rescind_due, revoke_due, write_due};
pub use left::{Left, Lefts, lefts_of};
pub use notices::{Notice, notices_of};
pub use owners::{is_gone, owns_at};
pub use places::first_place;
pub use stages::{
    guest_since, is_held, is_of, is_owner, is_session, is_single, is_unknown, is_writing, own_entry,
};
