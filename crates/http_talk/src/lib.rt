//! The part of a server's dialog that speaks of bytes alone: how a request is read, what it asks, how it is refused or answered with no
//! step, and how replies and the messages of a watch are written. What is asked of a machine stands above it.
#![tactic(auto)]

mod aliases;
mod answers;
mod ask;
mod cluster;
mod form;
mod probes;
mod ready;
mod received;
mod receiving;
mod refused;
mod refusing;
mod telling;

pub use answers::{Answers, NoAnswers};
pub use ask::asked;
pub use cluster::{ClusterAsk, OwnMember, cluster_ask_of, members_reply, unanswered_reply};
pub use form::RefusalForm;
pub use probes::{Probe, probe_of, probed};
pub use ready::Ready;
pub use received::Received;
pub use receiving::receive;
pub use refused::Refused;
pub use refusing::{refuse, refuse_request, write_ready};
pub use telling::{is_cancel, tell, tell_item};
