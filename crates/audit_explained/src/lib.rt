//! Why a line of a transcript is refused, for people: the item, the rule that it breaks, what was expected and what stands there, and the
//! lines that this rests on. The audit judges; this only reads the lines up to that one again, and promises nothing but that it ends. What
//! the store holds is found anew, by the store of a replay.
#![tactic(auto)]

mod answers;
mod events;
mod explained;
mod floors;
mod order;
mod reads;
mod rules;
mod said;
mod streams;
mod takes;

pub use explained::explanation;
