ghost use Rattle.std.specs.Prelude.{◌≡◌, IfOk};
ghost use Rattle.proxy_model.specs.Unwrapped.{key_without, record_without, prev_without, records_without, own_keys, body_without, bodies_without};
ghost use Rattle.proxy_model.specs.Unwrapped.{change_without, event_without, events_without};
ghost use Rattle.namespace_keys.specs.Returned.{Unwraps};

use crate::fault::KeyFault;
use crate::prefix::without;
use etcd_types::{Body, Bytes, Change, Event, Kv, List, NoMemory};
use std::alloc::Global;

#[cycle(body_unwrap)]
pub(crate) fn unwrap_body(alloc: Global, prefix: &Bytes, body: &Body) -> Result<Body, KeyFault>
    ensures { Unwraps result (body_without prefix.now body.now) }
{
    match body {
        Body::Range { count, more, kvs } => Ok(Body::Range {
            count: *count,
            more: *more,
            kvs: unwrap_records(alloc, prefix, kvs)?,
        }),
        Body::Put { prev } => Ok(Body::Put {
            prev: unwrap_prev(alloc, prefix, prev)?,
        }),
        Body::Delete { deleted, prevs } => Ok(Body::Delete {
            deleted: *deleted,
            prevs: unwrap_records(alloc, prefix, prevs)?,
        }),
        Body::Txn { succeeded, bodies } => Ok(Body::Txn {
            succeeded: *succeeded,
            bodies: unwrap_bodies(alloc, prefix, bodies)?,
        }),
        Body::TimeToLive {
            lease,
            ttl,
            granted,
            keys,
        } => Ok(Body::TimeToLive {
            lease: *lease,
            ttl: *ttl,
            granted: *granted,
            keys: own_keys(alloc, prefix, keys)?,
        }),
        _ => Ok(body.copy(alloc)?),
    }
}

#[cycle(body_unwrap)]
fn unwrap_bodies(alloc: Global, prefix: &Bytes, bodies: &List<Body>) -> Result<List<Body>, KeyFault>
    ensures { Unwraps result (bodies_without prefix.now bodies.now) }
{
    let mut unwrapped = List::new(alloc);
    for body in bodies.as_slice() {
        unwrapped.push(unwrap_body(alloc, prefix, body)?)?;
    }
    Ok(unwrapped)
}

pub(crate) fn unwrap_events(
    alloc: Global,
    prefix: &Bytes,
    events: &List<Event>,
) -> Result<List<Event>, KeyFault>
    ensures { Unwraps result (events_without prefix.now events.now) }
{
    let mut unwrapped = List::new(alloc);
    for event in events.as_slice() {
        unwrapped.push(unwrap_event(alloc, prefix, event)?)?;
    }
    Ok(unwrapped)
}

fn unwrap_event(alloc: Global, prefix: &Bytes, event: &Event) -> Result<Event, KeyFault>
    ensures { Unwraps result (event_without prefix.now event.now) }
{
    let change = unwrap_change(alloc, prefix, &event.change)?;
    let prev = unwrap_prev(alloc, prefix, &event.prev)?;
    Ok(Event { change, prev })
}

fn unwrap_change(alloc: Global, prefix: &Bytes, change: &Change) -> Result<Change, KeyFault>
    ensures { Unwraps result (change_without prefix.now change.now) }
{
    match change {
        Change::Put(kv) => Ok(Change::Put(unwrap_record(alloc, prefix, kv)?)),
        Change::Delete { key, modified } => Ok(Change::Delete {
            key: unwrap_key(alloc, prefix, key)?,
            modified: *modified,
        }),
    }
}

fn unwrap_records(alloc: Global, prefix: &Bytes, records: &List<Kv>) -> Result<List<Kv>, KeyFault>
    ensures { Unwraps result (records_without prefix.now records.now) }
{
    let mut unwrapped = List::new(alloc);
    for record in records.as_slice() {
        unwrapped.push(unwrap_record(alloc, prefix, record)?)?;
    }
    Ok(unwrapped)
}

fn unwrap_prev(alloc: Global, prefix: &Bytes, prev: &Option<Kv>) -> Result<Option<Kv>, KeyFault>
    ensures { Unwraps result (prev_without prefix.now prev.now) }
{
    match prev {
        None => Ok(None),
        Some(kv) => Ok(Some(unwrap_record(alloc, prefix, kv)?)),
    }
}

fn unwrap_record(alloc: Global, prefix: &Bytes, kv: &Kv) -> Result<Kv, KeyFault>
    ensures { Unwraps result (record_without prefix.now kv.now) }
{
    Ok(Kv {
        key: unwrap_key(alloc, prefix, &kv.key)?,
        value: kv.value.copy(alloc)?,
        create: kv.create,
        modified: kv.modified,
        version: kv.version,
        lease: kv.lease,
    })
}

fn unwrap_key(alloc: Global, prefix: &Bytes, key: &Bytes) -> Result<Bytes, KeyFault>
    ensures { Unwraps result (key_without prefix.now key.now) }
{
    match without(prefix, key) {
        Some(rest) => Ok(Bytes::from_slice(alloc, rest)?),
        None => Err(KeyFault::ForeignKey(key.copy(alloc)?)),
    }
}

/// The keys with the prefix, without it; the others are left out.
fn own_keys(alloc: Global, prefix: &Bytes, keys: &List<Bytes>) -> Result<List<Bytes>, NoMemory>
    ensures { IfOk result (λ own. own ≡ own_keys prefix.now keys.now) }
{
    let mut own = List::new(alloc);
    for key in keys.as_slice() {
        match without(prefix, key) {
            Some(rest) => own.push(Bytes::from_slice(alloc, rest)?)?,
            None => {}
        }
    }
    Ok(own)
}
