//! A server's start and its clients: it listens, starts its workers and its ticker, and then a part for each client that it accepts. What each
//! of these parts does stands in `proxy_parts`.
#![tactic(auto)]

mod clients;
mod ends;
mod places;
mod server;
mod service;
mod staff;

pub use ends::ServeEnd;
pub use server::serve;
pub use service::Service;
