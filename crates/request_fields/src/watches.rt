//! What a watch request says.
ghost use Rattle.std.specs.Prelude.{◌≡◌, ◌==◌, option_map};
ghost use Rattle.std.specs.List.{list_any};
ghost use Rattle.serde_json.specs.View.{items_view, members_view};
ghost use Rattle.json_model.specs.Faults.{Gives};
ghost use Rattle.json_model.specs.FieldNames as names;
ghost use Rattle.json_model.specs.Fields.{each, choice_from};
ghost use Rattle.json_model.specs.Tables as tables;
ghost use Rattle.json_model.specs.Watches as spec;

use crate::known::{only_create_fields, only_watch_fields};
use crate::requests::key_range_in;
use etcd_types::{Bytes, KeyRange, List, WatchAsk};
use json_fields::{FieldFault, child, choice_from, flag, is_there, list, number, wrong_kind};
use json_model::names::*;
use serde_json::{Map, Value};
use std::alloc::Global;

fn each_filter(alloc: Global, items: &[Value]) -> Result<List<u8>, FieldFault>
    ensures { Gives (λ filters. filters) result (each (choice_from tables.filters names.filters.0) (items_view items.now)) }
{
    let mut filters = List::new(alloc);
    for item in items {
        filters.push(choice_from(alloc, item, FILTERS.plain, FILTER_NAMES)?)?;
    }
    Ok(filters)
}

fn filters_in(alloc: Global, object: &Map<String, Value>) -> Result<List<u8>, FieldFault>
    ensures { Gives (λ filters. filters) result (spec.filters_in (members_view object.now.entries)) }
{
    match list(alloc, object, &FILTERS)? {
        None => Ok(List::new(alloc)),
        Some(items) => each_filter(alloc, items),
    }
}

fn has_filter(filters: &List<u8>, number: u8) -> bool
    ensures { result ≡ list_any (λ n. n == number) filters.now }
{
    filters.as_slice().iter().any(|n| *n == number)
}

/// `watch_id` and `fragment`.
#[tactic(auto, unfolding(json_model::specs::Watches::unserved_in))]
fn unserved_in(alloc: Global, object: &Map<String, Value>) -> Result<(u64, bool), FieldFault>
    ensures { Gives (λ x. (x.0, x.1)) result (spec.unserved_in (members_view object.now.entries)) }
{
    let watch_id = number(alloc, object, &WATCH_ID)?;
    let fragment = flag(alloc, object, &FRAGMENT)?;
    Ok((watch_id, fragment))
}

/// A watch. Its `watch_id` and `fragment` are only looked at: no request with them is served.
#[tactic(auto, unfolding(json_model::specs::Watches::create_in))]
fn create_in(alloc: Global, object: &Map<String, Value>) -> Result<WatchAsk, FieldFault>
    ensures { Gives (λ ask. ask) result (spec.create_in (members_view object.now.entries)) }
{
    only_create_fields(alloc, object)?;
    let range = key_range_in(alloc, object)?;
    let start = number(alloc, object, &START_REVISION)?;
    let progress = flag(alloc, object, &PROGRESS_NOTIFY)?;
    let filters = filters_in(alloc, object)?;
    let prev_kv = flag(alloc, object, &PREV_KV)?;
    unserved_in(alloc, object)?;
    Ok(WatchAsk {
        range,
        start,
        no_put: has_filter(&filters, 0),
        no_delete: has_filter(&filters, 1),
        prev_kv,
        progress,
    })
}

/// What stands for a watch where none is asked for.
fn no_watch(alloc: Global) -> WatchAsk
    ensures { result ≡ spec.no_watch }
{
    WatchAsk {
        range: KeyRange {
            key: Bytes::new(alloc),
            end: Bytes::new(alloc),
        },
        start: 0,
        no_put: false,
        no_delete: false,
        prev_kv: false,
        progress: false,
    }
}

fn asks_else(object: &Map<String, Value>) -> bool
    ensures { result ≡ spec.asks_else (members_view object.now.entries) }
{
    is_there(object, &CANCEL_REQUEST) || is_there(object, &PROGRESS_REQUEST)
}

#[tactic(auto, unfolding(json_model::specs::Watches::created_in))]
fn created_in(
    alloc: Global,
    object: &Map<String, Value>,
    create: Option<&Map<String, Value>>,
) -> Result<WatchAsk, FieldFault>
    ensures { Gives (λ ask. ask) result (spec.created_in (members_view object.now.entries) (option_map (λ m. members_view m.now.entries) create.entry)) }
{
    match create {
        Some(create) => create_in(alloc, create),
        None if asks_else(object) => Ok(no_watch(alloc)),
        None => Err(wrong_kind(alloc, CREATE_REQUEST.plain)),
    }
}

/// The watch of `create_request`. Where that isn't there, another of the three requests has to be; none of them is
/// served.
#[tactic(auto, unfolding(json_model::specs::Watches::watch_in))]
pub fn watch_in(alloc: Global, object: &Map<String, Value>) -> Result<WatchAsk, FieldFault>
    ensures { Gives (λ ask. ask) result (spec.watch_in (members_view object.now.entries)) }
{
    only_watch_fields(alloc, object)?;
    let create = child(alloc, object, &CREATE_REQUEST)?;
    let ask = created_in(alloc, object, create)?;
    child(alloc, object, &CANCEL_REQUEST)?;
    child(alloc, object, &PROGRESS_REQUEST)?;
    Ok(ask)
}
