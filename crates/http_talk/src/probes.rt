ghost use Rattle.std.specs.Prelude.{◌≡◌, IfOk};
ghost use Rattle.http_talk.specs.Probes as spec;

use crate::ready::Ready;
use etcd_types::{Bytes, NoMemory};
use http::Method;
use http_wire::Head;
use std::alloc::Global;

/// What a client asks of a server itself.
#[derive(Clone, Copy, Debug, PartialEq, Eq)]
pub enum Probe {
    /// `/version`: which API is served.
    Version,
    /// `/health`: whether the cluster answers.
    Health,
}

fn only_reads(method: &Method) -> bool
    ensures { result ≡ spec.only_reads method.now }
{
    method.as_str() == "GET" || method.as_str() == "HEAD"
}

/// Which probe a request is, if one.
pub fn probe_of(head: &Head) -> Option<Probe>
    ensures { result ≡ spec.probe_of head.now }
{
    if !only_reads(&head.method) {
        return None;
    }
    let path = head.path.as_slice();
    if path == b"/version".as_slice() {
        Some(Probe::Version)
    } else if path == b"/health".as_slice() {
        Some(Probe::Health)
    } else {
        None
    }
}

/// The answer to a probe, where the cluster answers or doesn't.
pub fn probed(alloc: Global, probe: Probe, answers: bool) -> Result<Ready, NoMemory>
    ensures { IfOk result (λ ready. ready ≡ spec.probed probe answers) }
{
    match probe {
        Probe::Version => Ok(Ready {
            status: 200,
            body: Bytes::from_slice(
                alloc,
                b"{\"etcdserver\":\"3.4.0\",\"etcdcluster\":\"3.4.0\"}",
            )?,
        }),
        Probe::Health => {
            if answers {
                Ok(Ready {
                    status: 200,
                    body: Bytes::from_slice(alloc, b"{\"health\":\"true\"}")?,
                })
            } else {
                Ok(Ready {
                    status: 503,
                    body: Bytes::from_slice(alloc, b"{\"health\":\"false\"}")?,
                })
            }
        }
    }
}
