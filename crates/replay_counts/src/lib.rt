//! What is drawn for the generated script of a number, and what is counted of the items that its lines gain.
#![tactic(auto)]

ghost use Rattle.replay_counts.specs.Summaries.{TalliesAreSummaries};

mod draws;
mod tally;

pub use draws::{asking, drawn};
pub use tally::Tally;

/// What is counted of items one by one is what the summary of all of them says.
pub fn tallies_are_summaries()
    ensures { TalliesAreSummaries }
{}
