use etcd_types::Kv;

/// What a change left of its key: the record, or nothing.
#[derive(Debug, PartialEq, Eq, Drop)]
pub struct Version {
    /// The revision of the change.
    pub revision: u64,
    pub left: Option<Kv>,
}
