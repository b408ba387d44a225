//! The client streams of a proxy, as a list by rising numbers: looked up, opened and closed, advanced and reopened; which of
//! them a watch joins, and which closing or opening is due first.
#![tactic(auto)]

mod due;
mod index;
mod rows;
mod seats;
mod streams;

pub use due::{first_due, none_due};
pub use index::RangeIndex;
pub use seats::stream_to_join;
pub use streams::{
    advance, begin, copy_range, create, created_next, drop_stream, empty, is_awaited, is_begun,
    is_closing, next_of, open, place_of, range_of, reopen,
};
