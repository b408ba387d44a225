//! The link to the members of a cluster over sockets: which member a call goes to, over which connection, and what comes back. It reports
//! nothing of what it carries, and counts its failures. What the bytes are is said by who reads and writes them, by the kind of a call and
//! by marks, and isn't looked for here.
//!
//! Every wait has a limit, but for a lookup of a host's name. A member that fails and one that answers again are reported on the
//! standard error, and so are workers that are all busy, and messages of streams that are too long to be read. Each line begins with its
//! time and its level, and of each kind there is at most one a second. Calls of workers are counted, of each
//! member its own.
#![tactic(auto)]

mod answer;
mod busy;
mod call_answer;
mod counts;
mod health;
mod idle;
mod link;
mod member;
mod members;
mod stream_answer;
mod streams;
mod traffic;
mod unread;
mod upstream;
mod users;

pub use answer::SocketAnswer;
pub use counts::CallCounts;
pub use health::{Asked, Health};
pub use link::SocketLink;
pub use members::Members;
pub use traffic::StreamCount;
