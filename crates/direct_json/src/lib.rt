//! JSON texts written from left to right, without a value: the replies of ranges and puts, the messages of watches, and the
//! ranges and puts that are sent to a cluster, which a proxy writes most. The texts are those of `json_model`.
#![tactic(auto)]

mod draft;
mod messages;
mod replies;
mod requests;
mod sheet;

pub use messages::item_text;
pub use replies::{put_reply_text, range_text};
pub use requests::{put_request_text, range_request_text};
