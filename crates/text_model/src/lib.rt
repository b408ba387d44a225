//! How values are spelled as texts of words and read again: forms, and how forms are put together.
#![tactic(auto)]

use percent_encoding::{AsciiSet, NON_ALPHANUMERIC, ascii_set};

/// The bytes below 128 that are escaped in a text: all but letters, digits, `-`, `.`, `_` and `/`.
pub const ESCAPED: AsciiSet = ascii_set!(
    NON_ALPHANUMERIC
        .remove(b'-')
        .remove(b'.')
        .remove(b'_')
        .remove(b'/')
);
