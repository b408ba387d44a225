//! The whole machine of one proxy, as definitions: what it keeps, what comes to it and from it, and its step. Each rule stands in a
//! file of `specs/` of its own; those on writes, reads and client watches stand in crates below.
//!
//! The types that the definitions speak of are declared here, and given on by the crates that work with them.
#![tactic(auto)]

ghost use Rattle.core_model.specs.State.{BeginsWithNothing};

mod event;
mod out_call;
mod settings;
mod worked;

pub use event::{CoreEvent, Job, Outcome, StepFault};
pub use out_call::{CallKind, OutCall, OutJob};
pub use read_model::{Acquire, Asked, Stage, Verdict};
pub use settings::Settings;
pub use worked::{worked_calls, worked_reads, worked_sessions, worked_writes};

/// At its start a proxy has asked and owns nothing.
pub fn at_the_start()
    ensures { BeginsWithNothing }
{}
