//! What the replies about leases say, without their headers.
ghost use Rattle.serde_json.specs.View.{view, items_view, members_view};
ghost use Rattle.json_model.specs.Faults.{Gives};
ghost use Rattle.json_model.specs.Fields.{each};
ghost use Rattle.json_model.specs.Replies as spec;
ghost use Rattle.reply_fields.specs.Keys.{key_of};

use etcd_types::{Body, Bytes, List};
use json_fields::{FieldFault, bytes_from, list, members_from, number, signed};
use json_model::names::*;
use json_model::reply_names::*;
use serde_json::{Map, Value};
use std::alloc::Global;

/// A lease's number and its time to live.
#[tactic(auto, unfolding(json_model::specs::Replies::lease_numbers))]
fn lease_numbers(alloc: Global, object: &Map<String, Value>) -> Result<(u64, u64), FieldFault>
    ensures { Gives (λ x. (x.0, x.1)) result (spec.lease_numbers (members_view object.now.entries)) }
{
    let lease = number(alloc, object, &ID)?;
    let ttl = number(alloc, object, &TTL)?;
    Ok((lease, ttl))
}

pub(crate) fn grant_body(alloc: Global, object: &Map<String, Value>) -> Result<Body, FieldFault>
    ensures { Gives (λ body. body) result (spec.grant_body (members_view object.now.entries)) }
{
    let (lease, ttl) = lease_numbers(alloc, object)?;
    Ok(Body::Grant { lease, ttl })
}

pub(crate) fn keep_alive_body(
    alloc: Global,
    object: &Map<String, Value>,
) -> Result<Body, FieldFault>
    ensures { Gives (λ body. body) result (spec.keep_alive_body (members_view object.now.entries)) }
{
    let (lease, ttl) = lease_numbers(alloc, object)?;
    Ok(Body::KeepAlive { lease, ttl })
}

#[tactic(auto, unfolding(crate::specs::Keys::key_of))]
fn key_of(alloc: Global, value: &Value) -> Result<Bytes, FieldFault>
    ensures { Gives (λ key. key) result (key_of (view value.now)) }
{
    Ok(bytes_from(alloc, value, KEYS.plain)?)
}

fn each_key(alloc: Global, items: &[Value]) -> Result<List<Bytes>, FieldFault>
    ensures { Gives (λ keys. keys) result (each key_of (items_view items.now)) }
{
    let mut keys = List::new(alloc);
    for item in items {
        keys.push(key_of(alloc, item)?)?;
    }
    Ok(keys)
}

#[tactic(auto, unfolding(crate::specs::Keys::key_of))]
fn keys_in(alloc: Global, object: &Map<String, Value>) -> Result<List<Bytes>, FieldFault>
    ensures { Gives (λ keys. keys) result (spec.keys_in (members_view object.now.entries)) }
{
    match list(alloc, object, &KEYS)? {
        None => Ok(List::new(alloc)),
        Some(items) => each_key(alloc, items),
    }
}

#[tactic(auto, unfolding(json_model::specs::Replies::time_to_live_body))]
pub(crate) fn time_to_live_body(
    alloc: Global,
    object: &Map<String, Value>,
) -> Result<Body, FieldFault>
    ensures { Gives (λ body. body) result (spec.time_to_live_body (members_view object.now.entries)) }
{
    let lease = number(alloc, object, &ID)?;
    let ttl = signed(alloc, object, &TTL)?;
    let granted = number(alloc, object, &GRANTED_TTL)?;
    let keys = keys_in(alloc, object)?;
    Ok(Body::TimeToLive {
        lease,
        ttl,
        granted,
        keys,
    })
}

#[tactic(auto, unfolding(json_model::specs::Replies::lease_of))]
fn lease_of(alloc: Global, value: &Value) -> Result<u64, FieldFault>
    ensures { Gives (λ lease. lease) result (spec.lease_of (view value.now)) }
{
    let object = members_from(alloc, value, LEASES.plain)?;
    Ok(number(alloc, object, &ID)?)
}

fn each_lease(alloc: Global, items: &[Value]) -> Result<List<u64>, FieldFault>
    ensures { Gives (λ leases. leases) result (each spec.lease_of (items_view items.now)) }
{
    let mut leases = List::new(alloc);
    for item in items {
        leases.push(lease_of(alloc, item)?)?;
    }
    Ok(leases)
}

pub(crate) fn leases_body(alloc: Global, object: &Map<String, Value>) -> Result<Body, FieldFault>
    ensures { Gives (λ body. body) result (spec.leases_body (members_view object.now.entries)) }
{
    match list(alloc, object, &LEASES)? {
        None => Ok(Body::Leases {
            leases: List::new(alloc),
        }),
        Some(items) => Ok(Body::Leases {
            leases: each_lease(alloc, items)?,
        }),
    }
}
