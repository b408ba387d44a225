use wait_model::Sending;

/// An acquire of a key that is due or out.
#[derive(Clone, Copy, Debug, PartialEq, Eq)]
pub struct Acquire {
    /// The read that it is for.
    pub ticket: u64,
    /// The session under which the key is to be owned.
    pub session: u64,
    pub sending: Sending,
}
