use etcd_types::Bytes;
use http_wire::Head;

/// A request as it was read.
#[derive(Debug, Drop)]
pub struct Received {
    pub head: Head,
    pub body: Bytes,
}
