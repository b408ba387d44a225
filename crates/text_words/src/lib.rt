//! The words of texts, read from left to right and appended to a text: numbers, bytes and flags.
#![tactic(auto)]

mod fault;
mod flags;
mod read_words;
mod words;
mod write_words;

pub use fault::ReadError;
pub use flags::{
    RangeFlags, WatchFlags, is_word, push_flag, push_flags, read_flag, read_put_flags,
    read_range_flags, read_watch_flags,
};
pub use read_words::{MAX_NUMBER, number_of, read_bytes, read_number, read_number_within};
pub use words::Words;
pub use write_words::{push_bytes, push_digits, push_number, push_word};
