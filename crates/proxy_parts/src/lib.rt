//! The parts of a server, each over a pass of one hub: workers, the ticker, connections and followers of streams. What each of them does
//! stands in `server_model`.
#![tactic(auto)]

// What is never inlined here keeps a thread's stack small: docs/DECISIONS.md.

mod connection;
mod place;
mod run;
mod seated;
mod seating;
mod ticker;
mod worker;

pub use connection::serve_connection;
pub use place::Place;
pub use proxy_server::{Answers, NoAnswers, Ready, RefusalForm};
pub use run::{PartDone, run_part};
pub use seated::Seated;
pub use seating::Seating;
pub use server_model::PartEnd;
pub use ticker::{TICK_MS, keep_ticking, tick};
pub use worker::{TURNS, keep_working};
