//! The versions of a key, those of them that a store keeps after a compaction, and what these alone tell: the record now and
//! at each revision that can still be read.
#![tactic(auto)]

mod laws;
mod version;

pub use laws::{
    kept_places_step, kept_versions_answer, kept_versions_step, versions_are_the_history,
    worked_compactions,
};
pub use version::Version;
