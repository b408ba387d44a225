//! What a proxy makes of its calls: their kinds, which answers count as heard, and the replies that verdicts stand for.
#![tactic(auto)]

mod hearing;
mod kinds;
mod replies;

pub use core_model::CallKind;
pub use hearing::{heard, is_known};
pub use kinds::{is_body_of, is_ordered, is_read, kind_of};
pub use replies::{reply_of, text_of};
