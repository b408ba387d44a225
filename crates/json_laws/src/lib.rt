//! Laws of the JSON mapping: what is written for a request, an answer or a message of a watch is read back as the same.
#![tactic(auto)]

mod replies;
mod requests;

pub use replies::what_is_written_is_read_back;
pub use requests::requests_are_read_back;
