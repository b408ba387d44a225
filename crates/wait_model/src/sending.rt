/// Where a call stands. Steps are counted from the start of the proxy, and calls are numbered from 1.
#[derive(Clone, Copy, Debug, PartialEq, Eq)]
pub enum Sending {
    /// To be sent, since this step.
    Due { since: u64 },
    /// Sent, under this number.
    Out { call: u64 },
}
