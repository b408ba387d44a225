//! Laws of the machine of one proxy: waiting writes, plain reads, whole steps, and watches. Each is a public function without a body.
#![tactic(auto)]

mod laws_of_reads;
mod laws_of_steps;
mod laws_of_watches;
mod laws_of_writes;

pub use laws_of_reads::{reads_keep, reads_wait, release_stands, released_in_place};
pub use laws_of_steps::{no_request_is_idle, plain_reads, steps_give, steps_keep, steps_stay};
pub use laws_of_watches::{no_watch_is_idle, steps_keep_streams};
pub use laws_of_writes::{each_step, one_pass, owners_shown, ranges_stay};
