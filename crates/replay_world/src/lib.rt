//! The world of a replay: a store of several members and the proxies before it, which takes the lines of a script one by one.
//!
//! What each line does is what the definitions of `world_model` say, whatever the machine of a proxy is made of.
#![tactic(auto)]

mod call_lines;
mod proxy_lines;
mod send_lines;
mod step;
mod store_lines;
mod stream_lines;
mod world;

pub use core_face::ProxyCore;
pub use world::World;
pub use world_model::{LineRefusal, WorldFault};
