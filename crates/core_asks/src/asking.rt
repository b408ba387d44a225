ghost use Rattle.std.specs.Prelude.{◌≡◌};
ghost use Rattle.proxy_model.specs.Prefixes.{leasing_range};
ghost use Rattle.core_model.specs.Asking.{asked_at, is_leased_read};
ghost use Rattle.core_asks.specs.Stages.{stage_of};

use calls_out::Calls;
use etcd_types::{Bytes, KeyRange, Request};
use keep_merge::group_stage;
use known_asks::{Asked, Asks, Stage};
use snapshot_reads::is_plain;
use wait_model::Sending;

/// A request as it is asked at this reading of the clock in milliseconds, with the random word that came with it.
pub fn asked_at(now: u64, ticket: u64, request: Request, word: u64) -> Asked
    ensures { result ≡ asked_at now ticket request word }
{
    Asked {
        ticket,
        request,
        word,
        asked: now,
        losses: 0,
        stales: 0,
        stage: Stage::Writes,
    }
}

/// Whether it is a plain read of a key outside the leasing range, which is handed in: one that the proxy's cache answers.
pub fn is_leased_read(prefix: &Bytes, leasing: &KeyRange, request: &Request) -> bool
    requires { leasing.now ≡ leasing_range prefix.now }
    ensures { result ≡ is_leased_read prefix.now request.now }
{
    match request {
        Request::Range(ask) => is_plain(ask) && !leasing.contains(&ask.range.key),
        _ => false,
    }
}

/// The stage of a request that is passed on: it waits for its own call, due since this step, or as a keepalive for the one that it
/// shares with others of its lease.
pub fn call_stage(step: u64, request: &Request, calls: &Calls, asks: &Asks) -> Stage
    ensures { result ≡ stage_of step request.now calls.now asks.now }
{
    match request {
        Request::KeepAlive { lease } => group_stage(step, *lease, calls, asks),
        _ => Stage::Calling(Sending::Due { since: step }),
    }
}
