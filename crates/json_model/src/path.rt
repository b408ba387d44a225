/// The paths of the API's JSON gateway that are served.
#[derive(Clone, Copy, Debug, PartialEq, Eq)]
pub enum Path {
    /// `/v3/kv/range`
    Range,
    /// `/v3/kv/put`
    Put,
    /// `/v3/kv/deleterange`
    DeleteRange,
    /// `/v3/kv/txn`
    Txn,
    /// `/v3/kv/compaction`
    Compaction,
    /// `/v3/lease/grant`
    LeaseGrant,
    /// `/v3/lease/revoke`
    LeaseRevoke,
    /// `/v3/lease/keepalive`
    LeaseKeepAlive,
    /// `/v3/lease/timetolive`
    LeaseTimeToLive,
    /// `/v3/lease/leases`
    LeaseLeases,
    /// `/v3/watch`
    Watch,
}
