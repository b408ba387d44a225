//! Keepalives of one lease share a call, as etcd's clientv3 merges them: at most one is out and one due. Those that are asked
//! while one is out share the next.
#![tactic(auto)]

mod ends;
mod joins;
mod sends;

pub use ends::{answer_group, lose_group};
pub use joins::group_stage;
pub use sends::send_group;
