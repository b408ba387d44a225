//! The store's server: it listens, and then starts a connection for each client that it accepts. What each connection does stands in
//! `store_serve`.
#![tactic(auto)]

mod clients;
mod server;

pub use proxy_service::ServeEnd;
pub use server::serve_shop;
