//! The words of `grpc-proxy start`: the values of its options, and why one is refused.
#![tactic(auto)]

mod address;
mod fault;
mod further;
mod metrics;
mod options;
mod read;
mod settings;
mod start_fault;
mod told;
mod values;
mod wrong;

pub use address::is_address;
pub use fault::{Cause, StartOption};
pub use read::read_start;
pub use settings::StartSettings;
pub use start_fault::StartFault;
pub use told::{serving_line, wrong_line};
pub use wrong::{ValueFault, Wrong};
