//! The system's sockets, tried by their public calls: what a limit of time cuts off, what a connection to a member carries and
//! when it carries another call, and what a link says of its members.
#![tactic(auto)]

#[cfg(test)]
mod tests;
