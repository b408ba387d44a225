//! The limits that sockets have, those of clients and those to members alike: how long each is waited for, bytes that come by a moment,
//! how much memory large requests take, and how often a line is written. Ends of connections that vanished are found by the system.
#![tactic(auto)]

mod limits;
mod lively;
mod log;
mod permits;
mod times;
mod transfer;
mod uploads;

pub use limits::{ConnectionLimits, LinkLimits};
pub use lively::keep_lively;
pub use log::{Pace, line_time};
pub use permits::Permits;
pub use times::{TRIES, Until, time};
pub use transfer::{glance, is_near, is_passing, receive};
pub use uploads::{Upload, Uploads};
