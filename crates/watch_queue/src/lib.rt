//! Watches with their queues: what waits for a watch's taker, in a ring of heads and a ring of events that all queues of
//! a batch share, and how a batch is given to all members of a stream or to none.
//!
//! The message of a batch that several members take whole is made once, with its text, and they share it.
//!
//! What needs memory comes first: it makes an item ready, which no queue shows. Then what was made ready is queued,
//! which takes none.
#![tactic(auto)]

mod batch;
mod chosen;
mod creating;
mod delivery;
mod entering;
mod fate;
mod head;
mod leaving;
mod members;
mod queue;
mod rings;
mod shares;
mod watching;

pub use batch::Batch;
pub use chosen::revision_of;
pub use creating::give_created;
pub use delivery::{give, give_progress, is_up_to};
pub use entering::{new_watch, seat, take_and_seat, take_item};
pub use fate::Fate;
pub use head::Head;
pub use leaving::{Cancellation, end, enter_again, is_behind, ready_to_leave};
pub use members::{has_member, is_in, renumber};
pub use queue::Queue;
pub use watching::Watching;
