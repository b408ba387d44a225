//! Laws of watches that share streams, over the definitions: nothing is held back, streams merge, queues are bounded.
//! Each is a public function without a body. Worked scripts stand beside them.
#![tactic(auto)]

mod laws;
mod worked;

pub use laws::{
    closings_are_left, joined_is_furthest, no_call_holds_back, nothing_is_held_back,
    progress_is_true, queued_items_hold, streams_stand_alone,
};
pub use worked::worked_scripts;
