//! Laws of the store: what requests do and answer, what holds of every store and becomes of its leases and compactions, and what its watches are
//! told. Each is a public function without a body.
#![tactic(auto)]

mod laws_of_events;
mod laws_of_lives;
mod laws_of_requests;

pub use laws_of_events::{
    other_steps_leave_watches, previous_records_are_earlier, progress_is_true,
    watches_tell_each_event_once,
};
pub use laws_of_lives::{
    compactions_rise, keys_stay_tested, leases_end_alone, records_keep_leases, stores_are_sound,
};
pub use laws_of_requests::{
    answers_tell_what_was_done, only_the_chosen_branch_runs, ranges_show_their_records,
    refusals_change_nothing, requests_make_one_revision, unnamed_keys_stay,
};
