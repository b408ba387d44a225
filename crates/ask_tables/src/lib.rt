//! The marks that a known request is found by, and the tables of the numbers that stand at them: by what the request waits for, by the
//! key at which it waits as a read, by the lease whose next call it waits for, and by when it was asked while it has no reply. Each table
//! has a mark for every request, so that one that changes takes no memory.
#![tactic(auto)]

mod key_marks;
mod marks;
mod row_marks;
mod stages;
mod tables;

pub use key_marks::{key_number, only_at_key};
pub use marks::{CALL_OUT, DUE, GROUP_OUT, REPLIED, WAITING, only_alike};
pub use row_marks::{GROUP_DUE, GROUP_NEXT, RowMarks, marks_of, only_keyed};
pub use stages::is_replied;
pub use tables::Tables;
