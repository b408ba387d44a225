//! Connections of clients, served over a turn: a machine that is stepped by this connection, and maybe by others. What a
//! connection's dialog is stands in `server_model`.
#![tactic(auto)]

// A function that is never inlined here has its frame only while it runs: what a thread's stack once reached stays in memory as long as the
// thread, and one into which others are inlined holds the frames of all of them at once.

mod ask;
mod direct;
mod ends;
mod exchange;
mod follow;
mod receive;
mod serve;
mod take;
mod talk;
mod turn;

pub use http_talk::{Answers, NoAnswers, Ready, RefusalForm};
pub use serve::serve_on;
pub use server_model::{SessionEnd, TurnFault};
pub use turn::Turn;
