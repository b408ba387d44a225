use etcd_types::Bytes;

/// One change of a revision.
#[derive(Debug, PartialEq, Eq, Drop)]
pub enum KeyChange {
    /// `lease` is the lease that the key is then attached to, or 0.
    Put {
        key: Bytes,
        value: Bytes,
        lease: u64,
    },
    Delete {
        key: Bytes,
    },
}
