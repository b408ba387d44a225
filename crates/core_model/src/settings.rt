use etcd_types::Bytes;

/// What a proxy is started with.
#[derive(Debug, PartialEq, Eq, Drop)]
pub struct Settings {
    /// How many members the cluster has, from 1 on.
    pub members: u32,
    /// What stands before each client key in the cluster; empty for none.
    pub namespace: Bytes,
    /// The leasing prefix, before the keys of ownership; where it is empty, leasing is off.
    pub leasing: Bytes,
    /// The time to live of a session, in seconds.
    pub ttl: u64,
}
