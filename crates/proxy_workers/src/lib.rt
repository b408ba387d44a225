//! Workers of a proxy: each draws what is due and makes it, one job after the other. What that is stands in `server_model`.
#![tactic(auto)]

mod desk;
mod job;
mod seats;
mod steps;
mod turns;

pub use seats::Seats;
pub use server_model::WorkEnd;
pub use turns::work;
