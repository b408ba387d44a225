//! The world of a replay, as definitions: a store of several members and the proxies before it, what each line of a script
//! does to them and what it gains, and what a transcript tells. `specs/` has the definitions, a file a subject; here stand
//! the few types that they speak of.
#![tactic(auto)]

mod fault;
mod floor;
mod sent_call;
mod worked;

pub use fault::{LineRefusal, WorldFault};
pub use floor::Floor;
pub use sent_call::SentCall;
pub use worked::{worked_generation, worked_leases, worked_scripts, worked_tellings};
