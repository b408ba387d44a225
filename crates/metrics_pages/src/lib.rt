//! The second listener of a server, which shows what the server counts: `GET /metrics` in the text format of Prometheus, `GET /health`, and
//! `GET /`, a page for a browser. Each connection has one request, and every wait for it has a limit.
#![tactic(auto)]

mod asked;
mod pages;

pub use asked::{Asked, asked_of};
pub use pages::{Pages, Shows, listen};
