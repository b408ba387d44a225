//! Headers and records.
ghost use Rattle.std.specs.Prelude.{◌≡◌, option_map};
ghost use Rattle.serde_json.specs.View.{view, items_view, members_view};
ghost use Rattle.json_model.specs.Faults.{Gives};
ghost use Rattle.json_model.specs.Fields.{each};
ghost use Rattle.json_model.specs.Replies as spec;

use crate::known::{once_header_fields, once_record_fields};
use etcd_types::{Header, Kv, List};
use json_fields::{FieldFault, Names, bytes, child, list, members_from, number, wide_number};
use json_model::names::*;
use json_model::reply_names::*;
use serde_json::{Map, Value};
use std::alloc::Global;

#[tactic(auto, unfolding(json_model::specs::Replies::numbers_in))]
fn numbers_in(alloc: Global, object: &Map<String, Value>) -> Result<Header, FieldFault>
    ensures { Gives (λ x. (x.cluster, x.member, x.revision, x.term)) result (spec.numbers_in (members_view object.now.entries)) }
{
    let cluster = wide_number(alloc, object, &CLUSTER_ID)?;
    let member = wide_number(alloc, object, &MEMBER_ID)?;
    let revision = number(alloc, object, &REVISION)?;
    let term = number(alloc, object, &RAFT_TERM)?;
    Ok(Header {
        cluster,
        member,
        revision,
        term,
    })
}

#[tactic(auto, unfolding(json_model::specs::Replies::header_from))]
fn header_from(alloc: Global, object: &Map<String, Value>) -> Result<Header, FieldFault>
    ensures { Gives (λ header. header) result (spec.header_from (members_view object.now.entries)) }
{
    once_header_fields(alloc, object)?;
    Ok(numbers_in(alloc, object)?)
}

/// The header of a reply. A missing one is four zeros.
#[tactic(auto, unfolding(json_model::specs::Replies::header_in))]
pub(crate) fn header_in(alloc: Global, object: &Map<String, Value>) -> Result<Header, FieldFault>
    ensures { Gives (λ header. header) result (spec.header_in (members_view object.now.entries)) }
{
    match child(alloc, object, &HEADER)? {
        None => Ok(header_from(alloc, &Map::new(alloc))?),
        Some(header) => header_from(alloc, header),
    }
}

/// The numbers of a record.
#[derive(Drop)]
struct Revisions {
    create: u64,
    modified: u64,
    version: u64,
    lease: u64,
}

#[tactic(auto, unfolding(json_model::specs::Replies::revisions_in))]
fn revisions_in(alloc: Global, object: &Map<String, Value>) -> Result<Revisions, FieldFault>
    ensures { Gives (λ x. (x.create, x.modified, x.version, x.lease)) result (spec.revisions_in (members_view object.now.entries)) }
{
    let create = number(alloc, object, &CREATE_REVISION)?;
    let modified = number(alloc, object, &MOD_REVISION)?;
    let version = number(alloc, object, &VERSION)?;
    let lease = number(alloc, object, &LEASE)?;
    Ok(Revisions {
        create,
        modified,
        version,
        lease,
    })
}

#[tactic(auto, unfolding(json_model::specs::Replies::record_from))]
pub(crate) fn record_from(alloc: Global, object: &Map<String, Value>) -> Result<Kv, FieldFault>
    ensures { Gives (λ kv. kv) result (spec.record_from (members_view object.now.entries)) }
{
    once_record_fields(alloc, object)?;
    let key = bytes(alloc, object, &KEY)?;
    let value = bytes(alloc, object, &VALUE)?;
    let numbers = revisions_in(alloc, object)?;
    Ok(Kv {
        key,
        value,
        create: numbers.create,
        modified: numbers.modified,
        version: numbers.version,
        lease: numbers.lease,
    })
}

fn record_of(alloc: Global, value: &Value, name: &str) -> Result<Kv, FieldFault>
    ensures { Gives (λ kv. kv) result (spec.record_of name.now (view value.now)) }
{
    let object = members_from(alloc, value, name)?;
    Ok(record_from(alloc, object)?)
}

fn each_record(alloc: Global, items: &[Value], name: &str) -> Result<List<Kv>, FieldFault>
    ensures { Gives (λ kvs. kvs) result (each (spec.record_of name.now) (items_view items.now)) }
{
    let mut records = List::new(alloc);
    for item in items {
        records.push(record_of(alloc, item, name)?)?;
    }
    Ok(records)
}

/// The records of a list.
pub(crate) fn records_at(
    alloc: Global,
    object: &Map<String, Value>,
    names: &Names,
) -> Result<List<Kv>, FieldFault>
    ensures { Gives (λ kvs. kvs) result (spec.records_at (names.now.plain.now, names.now.camel.now) (members_view object.now.entries)) }
{
    match list(alloc, object, names)? {
        None => Ok(List::new(alloc)),
        Some(items) => each_record(alloc, items, names.plain),
    }
}

/// The record before a change, where it is there.
pub(crate) fn prev_in(alloc: Global, object: &Map<String, Value>) -> Result<Option<Kv>, FieldFault>
    ensures { Gives (λ kv. kv) result (spec.prev_in (members_view object.now.entries)) }
{
    match child(alloc, object, &PREV_KV)? {
        None => Ok(None),
        Some(record) => Ok(Some(record_from(alloc, record)?)),
    }
}
