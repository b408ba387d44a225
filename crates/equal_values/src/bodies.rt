ghost use Rattle.std.specs.Prelude.{◌≡◌};
ghost use Rattle.equal_values.specs.Bodies.{is_range as as_range, is_put as as_put, is_delete as as_delete, is_txn_of, is_compact as as_compact, is_grant as as_grant, is_revoke as as_revoke, is_keep_alive as as_keep_alive, is_time_to_live as as_time_to_live, is_leases as as_leases, same_body as is_same_body, same_bodies as are_same_bodies};

use crate::lists::{same_keys, same_kvs, same_numbers};
use crate::records::same_prev;
use etcd_types::{Body, Bytes, Kv, List};

/// Whether two bodies are the same, transactions within transactions too.
#[cycle(body)]
pub fn same_body(told: &Body, due: &Body) -> bool
    ensures { result ≡ is_same_body told.now due.now }
{
    match told {
        Body::Range { count, more, kvs } => is_range(*count, *more, kvs, due),
        Body::Put { prev } => is_put(prev, due),
        Body::Delete { deleted, prevs } => is_delete(*deleted, prevs, due),
        Body::Txn { succeeded, bodies } => is_txn(*succeeded, bodies, due),
        Body::Compact => is_compact(due),
        Body::Grant { lease, ttl } => is_grant(*lease, *ttl, due),
        Body::Revoke => is_revoke(due),
        Body::KeepAlive { lease, ttl } => is_keep_alive(*lease, *ttl, due),
        Body::TimeToLive {
            lease,
            ttl,
            granted,
            keys,
        } => is_time_to_live(*lease, *ttl, *granted, keys, due),
        Body::Leases { leases } => is_leases(leases, due),
    }
}

#[cycle(body)]
fn is_txn(succeeded: bool, bodies: &List<Body>, due: &Body) -> bool
    ensures { result ≡ is_txn_of succeeded bodies.now due.now }
{
    match due {
        Body::Txn {
            succeeded: flag,
            bodies: rest,
        } => succeeded == *flag && same_bodies(bodies, rest),
        _ => false,
    }
}

#[cycle(body)]
fn same_bodies(told: &List<Body>, due: &List<Body>) -> bool
    ensures { result ≡ are_same_bodies told.now due.now }
{
    let due = due.as_slice();
    if told.len() != due.len() {
        return false;
    }
    for (place, body) in told.as_slice().iter().enumerate() {
        if !same_body(body, &due[place]) {
            return false;
        }
    }
    true
}

fn is_range(count: u64, more: bool, kvs: &List<Kv>, due: &Body) -> bool
    ensures { result ≡ as_range count more kvs.now due.now }
{
    match due {
        Body::Range {
            count: n,
            more: m,
            kvs: ks,
        } => count == *n && more == *m && same_kvs(kvs, ks),
        _ => false,
    }
}

fn is_put(prev: &Option<Kv>, due: &Body) -> bool
    ensures { result ≡ as_put prev.now due.now }
{
    match due {
        Body::Put { prev: p } => same_prev(prev, p),
        _ => false,
    }
}

fn is_delete(deleted: u64, prevs: &List<Kv>, due: &Body) -> bool
    ensures { result ≡ as_delete deleted prevs.now due.now }
{
    match due {
        Body::Delete {
            deleted: n,
            prevs: ps,
        } => deleted == *n && same_kvs(prevs, ps),
        _ => false,
    }
}

fn is_compact(due: &Body) -> bool
    ensures { result ≡ as_compact due.now }
{
    match due {
        Body::Compact => true,
        _ => false,
    }
}

fn is_grant(lease: u64, ttl: u64, due: &Body) -> bool
    ensures { result ≡ as_grant lease ttl due.now }
{
    match due {
        Body::Grant { lease: l, ttl: t } => lease == *l && ttl == *t,
        _ => false,
    }
}

fn is_revoke(due: &Body) -> bool
    ensures { result ≡ as_revoke due.now }
{
    match due {
        Body::Revoke => true,
        _ => false,
    }
}

fn is_keep_alive(lease: u64, ttl: u64, due: &Body) -> bool
    ensures { result ≡ as_keep_alive lease ttl due.now }
{
    match due {
        Body::KeepAlive { lease: l, ttl: t } => lease == *l && ttl == *t,
        _ => false,
    }
}

fn is_time_to_live(lease: u64, ttl: i64, granted: u64, keys: &List<Bytes>, due: &Body) -> bool
    ensures { result ≡ as_time_to_live lease ttl granted keys.now due.now }
{
    match due {
        Body::TimeToLive {
            lease: l,
            ttl: t,
            granted: g,
            keys: ks,
        } => { lease == *l && ttl == *t && granted == *g && same_keys(keys, ks) }
        _ => false,
    }
}

fn is_leases(leases: &List<u64>, due: &Body) -> bool
    ensures { result ≡ as_leases leases.now due.now }
{
    match due {
        Body::Leases { leases: ls } => same_numbers(leases, ls),
        _ => false,
    }
}
