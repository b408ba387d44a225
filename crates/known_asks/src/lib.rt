//! The requests that a proxy knows: those without a reply and those whose reply wasn't taken, in order of asking, found by ticket
//! in logarithmic time. Clock work that finds nothing to do looks at none of them.
#![tactic(auto)]

mod alike;
mod asks;
mod callers;
mod groups;
mod kin;
mod losses;
mod places;
mod restage;
mod rule;
mod stages;
mod times;
mod waiting;

pub use ask_tables::is_replied;
pub use asks::Asks;
pub use callers::{Callers, calls_as};
pub use groups::{change_due_group, change_group, change_next_group, due_group, group_changes};
pub use losses::{lose_once, refuse_stale};
pub use read_model::{Asked, Stage, Verdict};
pub use restage::{Restage, set_stages};
pub use rule::Rule;
pub use waiting::{change_waiting, change_waiting_at, waiting_changes, waiting_changes_at};
