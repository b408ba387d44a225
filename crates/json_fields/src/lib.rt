//! The fields of JSON objects, read and written by their kinds in the etcd API: bytes as base64 text, numbers as decimal
//! text or JSON numbers, enums by name or number.
//!
//! An absent field, and one that is null, has its kind's default. Defaults are left out of what is written.
#![tactic(auto)]

mod faults;
mod known;
mod names;
mod numbers;
mod octets;
mod readers;
mod texts;
mod values;
mod writers;

pub use faults::wrong_kind;
pub use json_model::{FieldFault, Names};
pub use known::{once, only};
pub use readers::{
    array_at, bytes, child, choice, flag, found, is_nonzero, is_set, is_there, list, number,
    object_at, signed, wide_number,
};
pub use texts::{object_of, object_text};
pub use values::{bytes_from, choice_from, members_from};
pub use writers::{
    bytes_text, object_within, put_bytes, put_choice, put_flag, put_list, put_number, put_object,
    put_signed, put_value,
};
