use etcd_types::{Answer, Request};

/// A call that a proxy sent, and what became of it.
#[derive(Debug, PartialEq, Eq, Drop)]
pub struct SentCall {
    pub proxy: u64,
    /// How often that proxy had been started when it sent the call.
    pub life: u64,
    /// The proxy's own number of the call.
    pub own: u64,
    /// The member that it was sent to, from 1.
    pub member: u32,
    /// As it was sent, with the namespace.
    pub request: Request,
    /// The proxy's clock when it was sent, in milliseconds.
    pub clock: u64,
    /// The store's answer, once it was executed.
    pub executed: Option<Answer>,
    /// Whether it was answered or lost.
    pub settled: bool,
}
