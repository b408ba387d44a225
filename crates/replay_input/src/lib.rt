//! A script that comes in pieces, and the transcript that goes out: bytes are cut into lines, lines are counted and read, each is
//! taken by the world of a replay, and what it gains is written. The world stands on any machine of a proxy.
#![tactic(auto)]

mod lines;
mod refused;
mod replay;
mod script;
mod stop;

pub use core_face::ProxyCore;
pub use replay::replay_script;
pub use replay_model::Ending;
pub use stop::Stop;
pub use world_model::LineRefusal;
