//! What a replay is to do with the bytes of a script, as definitions: how they are cut into lines, how far its lines take a
//! replay, the limits of scripts, and a transcript as bytes. No body here does work; `specs/` has the definitions, a file a
//! subject, and here stand the few types that they speak of. What a line does is defined in `world_model`.
#![tactic(auto)]

mod ending;
mod laws;
mod limits;

pub use ending::Ending;
pub use laws::{a_script_has_a_transcript, few_lines_are_taken, lines_make_the_script};
pub use limits::{MOST_BYTES, MOST_LINE_BYTES, MOST_LINES, limits_are_stated};
