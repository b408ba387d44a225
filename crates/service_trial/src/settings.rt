ghost use Rattle.std.specs.Prelude.{◌≡◌, IfOk, length};

use core_model::Settings;
use etcd_types::{Bytes, List, NoMemory};
use proxy_parts::RefusalForm;
use proxy_service::Service;
use std::alloc::Global;

/// A server with two workers before two members.
pub(crate) fn service(alloc: Global) -> Result<Service, NoMemory>
    ensures { IfOk result (λ s. (s.core.members ≡ 2) × (length s.hosts ≡ 2)) }
{
    let mut hosts = List::new(alloc);
    hosts.push(Bytes::from_slice(alloc, b"member:1")?)?;
    hosts.push(Bytes::from_slice(alloc, b"member:2")?)?;
    Ok(Service {
        core: Settings {
            members: 2,
            namespace: Bytes::from_vec(Vec::new(alloc)),
            leasing: Bytes::from_vec(Vec::new(alloc)),
            ttl: 60,
        },
        hosts,
        listen: Bytes::from_slice(alloc, b"here:1")?,
        workers: 2,
        message_limit: 8_388_608,
        form: RefusalForm::Mapping,
    })
}

/// So many clients that wait to be accepted, each its number.
pub(crate) fn clients(alloc: Global, count: u32) -> Result<Vec<u32>, NoMemory> {
    let mut clients = Vec::new(alloc);
    for client in 0..count {
        clients.push(client)?;
    }
    Ok(clients)
}
