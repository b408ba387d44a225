use etcd_types::Bytes;

/// A reply that is ready: it needs no step of a machine.
#[derive(Debug, Drop)]
pub struct Ready {
    /// The status, from 100 to 999.
    pub status: u16,
    /// The body, JSON.
    pub body: Bytes,
}
