//! One machine that many threads step, one at a time, and the one history of its steps.
//!
//! A `Hub` holds a `Machine`, and a thread steps it through a `Pass`. All steps of all passes stand in one history, which
//! exists in contracts alone: a pass has seen a beginning of it, and knows the places of its own entries in it.
//!
//! What threads share is a table of `atomic_table`: the count of steps, the turn, and a slot for the machine. A step takes
//! the turn by a compare-exchange and the slot with it, exchanges the machine out, loads the count, reads the clock, steps
//! the machine, adds one to the count, exchanges the machine back, and stores the turn as free. Splitting and joining
//! passes are the other kinds of atomic step, and each kind keeps the rule of `specs/Rule.antt`.
//!
//! A thread that finds the turn taken looks for it two thousand times, and then parks. A pass that waits for something to
//! take rests in its lot, or in its crew, until a step rouses it, and for 10 seconds at most. The clauses say nothing of
//! waiting: not that a call gets its turn, nor that a wake arrives. The program `service_trial` races wake-ups.
#![tactic(auto)]

mod fault;
mod history;
mod hub;
mod meet;
mod pass;
mod rule;
mod step;
mod turn;
mod view;
mod waiting;

pub use fault::HubFault;
pub use history::Entry;
pub use hub::{Hub, HubOf};
pub use pass::{Pass, PassOf};
pub use view::Opening;
pub use waiting::LONGEST_REST_SECONDS;
