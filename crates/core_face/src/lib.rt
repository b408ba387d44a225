//! What a program asks of the machine of one proxy, whatever it is made of: its start, its step, and a few questions. What
//! each of them answers is what the definitions of the machine say.
#![tactic(auto)]

mod face;

pub use core_model::{CoreEvent, Job, Outcome, Settings, StepFault};
pub use face::ProxyCore;
