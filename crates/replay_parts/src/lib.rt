//! What the world of a replay keeps and tells, apart from what a proxy is made of: values by number, items, sessions' floors,
//! calls, streams, and the store.
#![tactic(auto)]

mod calls;
mod floors;
mod gains;
mod numbers;
mod opened;
mod refusals;
mod stored;

pub use calls::{mark_executed, mark_settled, nth};
pub use floors::raise_floors;
pub use gains::{one, push_replies, push_reply, taken};
pub use numbers::Numbers;
pub use opened::{OpenedStream, drop_first, end_stream};
pub use refusals::post_refusal;
pub use stored::{execute_at, expire, has_lease, open_watch, stream_fault};
