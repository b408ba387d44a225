use etcd_types::{Bytes, List};

/// What the words of `grpc-proxy start` name.
#[derive(Debug, PartialEq, Eq, Drop)]
pub struct StartSettings {
    /// The addresses of the members, `host:port` or of another form that is taken, in the order of their numbers; 1 to 9.
    pub endpoints: List<Bytes>,
    /// The address on which clients are served, `host:port` or of another form that is taken.
    pub listen: Bytes,
    /// What stands before each client key in the cluster; empty for none.
    pub namespace: Bytes,
    /// The leasing prefix; where it is empty, leasing is off.
    pub leasing: Bytes,
    /// How many workers make calls, 1 to 64.
    pub workers: u64,
    /// The time to live of a session, 5 to 3,600 seconds.
    pub session_ttl: u64,
    /// How long a message of a watch may be that a member sends, 8 to 64 MiB.
    pub message_limit: u64,
    /// The path of the file that keeps the numbers of sessions; empty for none.
    pub state_file: Bytes,
    /// Whether the server stops once the standard input has ended.
    pub stop_at_end: bool,
    /// How many clients are connected at once, 1 to 16,384.
    pub max_connections: u64,
    /// The address that clients are told to come to; empty for the one on which they are served.
    pub advertise: Bytes,
    /// Whether refusals are written as etcd's own gateway has them.
    pub etcd_errors: bool,
    /// The address on which figures are shown, `host:port`; empty for none.
    pub metrics: Bytes,
}
