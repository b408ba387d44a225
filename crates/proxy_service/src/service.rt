use core_model::Settings;
use etcd_types::{Bytes, List};
use proxy_parts::RefusalForm;

/// What a server is started with.
#[derive(Debug, Drop)]
pub struct Service {
    /// What its proxy is started with. It has as many members as there are hosts.
    pub core: Settings,
    /// The addresses of the members, `host:port`, that of member 1 first.
    pub hosts: List<Bytes>,
    /// The address on which clients are served, `host:port`.
    pub listen: Bytes,
    /// How many workers make calls.
    pub workers: u32,
    /// How many bytes a message of a watch may have that a member sends.
    pub message_limit: usize,
    /// How refusals are written.
    pub form: RefusalForm,
}
