//! The events of a watch.
ghost use Rattle.std.specs.Prelude.{◌≡◌, option_map};
ghost use Rattle.serde_json.specs.View.{view, items_view, members_view};
ghost use Rattle.json_model.specs.Faults.{Gives};
ghost use Rattle.json_model.specs.Fields.{each, members_or_none};
ghost use Rattle.json_model.specs.Replies.{record_from};
ghost use Rattle.json_model.specs.WatchItems as spec;

use crate::known::once_event_fields;
use crate::records::{prev_in, record_from};
use etcd_types::{Change, Event, Kv, List};
use json_fields::{FieldFault, child, choice, list, members_from};
use json_model::names::*;
use json_model::reply_names::*;
use serde_json::{Map, Value};
use std::alloc::Global;

/// Kind 0 is a put. A deletion tells its key and its revision.
fn change_of(kind: u8, record: Kv) -> Change
    ensures { result ≡ spec.change_of kind «record» }
{
    if kind == 0 {
        Change::Put(record)
    } else {
        Change::Delete {
            key: record.key,
            modified: record.modified,
        }
    }
}

fn record_within(alloc: Global, object: Option<&Map<String, Value>>) -> Result<Kv, FieldFault>
    ensures { Gives (λ kv. kv) result (record_from (members_or_none (option_map (λ m. members_view m.now.entries) object.entry))) }
{
    match object {
        None => Ok(record_from(alloc, &Map::new(alloc))?),
        Some(object) => record_from(alloc, object),
    }
}

#[tactic(auto, unfolding(json_model::specs::WatchItems::event_from))]
fn event_from(alloc: Global, object: &Map<String, Value>) -> Result<Event, FieldFault>
    ensures { Gives (λ event. event) result (spec.event_from (members_view object.now.entries)) }
{
    once_event_fields(alloc, object)?;
    let kind = choice(alloc, object, &TYPE, EVENT_TYPES)?;
    let kv = child(alloc, object, &KV)?;
    let kv = record_within(alloc, kv)?;
    let prev = prev_in(alloc, object)?;
    Ok(Event {
        change: change_of(kind, kv),
        prev,
    })
}

fn event_of(alloc: Global, value: &Value) -> Result<Event, FieldFault>
    ensures { Gives (λ event. event) result (spec.event_of (view value.now)) }
{
    let object = members_from(alloc, value, EVENTS.plain)?;
    Ok(event_from(alloc, object)?)
}

fn each_event(alloc: Global, items: &[Value]) -> Result<List<Event>, FieldFault>
    ensures { Gives (λ events. events) result (each spec.event_of (items_view items.now)) }
{
    let mut events = List::new(alloc);
    for item in items {
        events.push(event_of(alloc, item)?)?;
    }
    Ok(events)
}

pub(crate) fn events_in(
    alloc: Global,
    object: &Map<String, Value>,
) -> Result<List<Event>, FieldFault>
    ensures { Gives (λ events. events) result (spec.events_in (members_view object.now.entries)) }
{
    match list(alloc, object, &EVENTS)? {
        None => Ok(List::new(alloc)),
        Some(items) => each_event(alloc, items),
    }
}
