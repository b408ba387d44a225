//! What a proxy keeps, as one value, and what its clock and its events do with it, but for requests that are asked and what is
//! sent. Each call is its definition's function, and takes all memory before it changes anything.
#![tactic(auto)]

// A function that is never inlined here has its frame only while it runs: what a thread's stack once reached stays in memory as long as the
// thread, and one into which others are inlined holds the frames of all of them at once.

mod answers;
mod bytes;
mod clock;
mod cuts;
mod items;
mod leasing;
mod leaves;
mod losses;
mod machine;
mod peeks;
mod replies;
mod takes;
mod ticks;

pub use machine::Machine;
