ghost use Rattle.std.specs.Prelude.{◌≡◌};
ghost use Rattle.core_model.specs.Groups.{keeps, group_stage, joining};

use calls_out::Calls;
use etcd_types::Request;
use known_asks::{Asks, Stage, due_group};
use wait_model::Sending;

/// The stage of a new keepalive of the lease: it waits while one is out, joins the due group, or makes one, due since this step. It takes
/// logarithmic time.
pub fn group_stage(step: u64, lease: u64, calls: &Calls, asks: &Asks) -> Stage
    ensures { result ≡ group_stage step lease calls.now asks.now }
{
    if calls.has_group(lease) {
        return Stage::Grouped(None);
    }
    joining(step, due_group(asks, lease))
}

fn joining(step: u64, since: Option<u64>) -> Stage
    ensures { result ≡ joining step since }
{
    match since {
        Some(since) => Stage::Grouped(Some(Sending::Due { since })),
        None => Stage::Grouped(Some(Sending::Due { since: step })),
    }
}

/// Whether it is a client's keepalive of the lease.
pub(crate) fn keeps(lease: u64, request: &Request) -> bool
    ensures { result ≡ keeps lease request.now }
{
    match request {
        Request::KeepAlive { lease: number } => *number == lease,
        _ => false,
    }
}
