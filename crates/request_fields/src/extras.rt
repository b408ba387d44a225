//! What a request says that isn't served, looked for once it has no other fault.
ghost use Rattle.std.specs.Prelude.{◌≡◌, ◌-◌, option_map};
ghost use Rattle.serde_json.specs.View.{view, items_view, members_view};
ghost use Rattle.json_model.specs.Extras as spec;
ghost use Rattle.json_model.specs.Fields.{found};

use json_fields::{Names, array_at, is_nonzero, is_set, is_there, object_at};
use json_model::names::*;
use json_model::{Extra, Path, Reading};
use serde_json::{Map, Value};

/// The extra's field.
pub fn extra_name(extra: Extra) -> &'static str
    ensures { result.now ≡ spec.extra_name extra }
{
    match extra {
        Extra::IgnoreValue => IGNORE_VALUE.plain,
        Extra::IgnoreLease => IGNORE_LEASE.plain,
        Extra::RequestTxn => REQUEST_TXN.plain,
        Extra::WatchId => WATCH_ID.plain,
        Extra::Fragment => FRAGMENT.plain,
        Extra::CancelRequest => CANCEL_REQUEST.plain,
        Extra::ProgressRequest => PROGRESS_REQUEST.plain,
    }
}

fn is_refused(reading: Reading, extra: Extra) -> bool
    ensures { result ≡ spec.is_refused reading extra }
{
    match reading {
        Reading::Client => true,
        Reading::Call => !matches!(extra, Extra::IgnoreLease | Extra::RequestTxn),
    }
}

fn extra_if(reading: Reading, there: bool, extra: Extra) -> Option<Extra>
    ensures { result ≡ spec.extra_if reading there extra }
{
    if there && is_refused(reading, extra) {
        Some(extra)
    } else {
        None
    }
}

#[tactic(auto, unfolding(json_model::specs::Extras::put_extra))]
fn put_extra(reading: Reading, object: &Map<String, Value>) -> Option<Extra>
    ensures { result ≡ spec.put_extra reading (members_view object.now.entries) }
{
    match extra_if(reading, is_set(object, &IGNORE_VALUE), Extra::IgnoreValue) {
        Some(extra) => Some(extra),
        None => extra_if(reading, is_set(object, &IGNORE_LEASE), Extra::IgnoreLease),
    }
}

fn inner_put_extra(reading: Reading, object: &Map<String, Value>) -> Option<Extra>
    ensures { result ≡ spec.inner_put_extra reading (members_view object.now.entries) }
{
    match object_at(object, &REQUEST_PUT) {
        Some(put) => put_extra(reading, put),
        None => None,
    }
}

#[cycle(extra)]
fn inner_txn_extra(reading: Reading, object: &Map<String, Value>, depth: u64) -> Option<Extra>
    ensures { result ≡ spec.inner_txn_extra (spec.txn_extra reading depth) (members_view object.now.entries) }
{
    match object_at(object, &REQUEST_TXN) {
        Some(txn) => txn_extra(reading, txn, depth),
        None => None,
    }
}

#[cycle(extra)]
#[tactic(auto, unfolding(json_model::specs::Extras::nested_extra))]
fn nested_extra(reading: Reading, object: &Map<String, Value>, depth: u64) -> Option<Extra>
    ensures { result ≡ spec.nested_extra reading (spec.txn_extra reading depth) (members_view object.now.entries) }
{
    match extra_if(reading, is_there(object, &REQUEST_TXN), Extra::RequestTxn) {
        Some(extra) => Some(extra),
        None => inner_txn_extra(reading, object, depth),
    }
}

#[cycle(extra)]
#[tactic(auto, unfolding(json_model::specs::Extras::operation_extra))]
fn operation_extra(reading: Reading, object: &Map<String, Value>, depth: u64) -> Option<Extra>
    ensures { result ≡ spec.operation_extra reading (spec.txn_extra reading depth) (members_view object.now.entries) }
{
    match inner_put_extra(reading, object) {
        Some(extra) => Some(extra),
        None => nested_extra(reading, object, depth),
    }
}

#[cycle(extra)]
fn value_extra(reading: Reading, value: &Value, depth: u64) -> Option<Extra>
    ensures { result ≡ spec.value_extra reading (spec.txn_extra reading depth) (view value.now) }
{
    match value {
        Value::Object(object) => operation_extra(reading, object, depth),
        _ => None,
    }
}

#[cycle(extra)]
fn items_extra(reading: Reading, items: &[Value], depth: u64) -> Option<Extra>
    ensures { result ≡ spec.in_items (spec.value_extra reading (spec.txn_extra reading depth)) (items_view items.now) }
{
    for item in items {
        if let Some(extra) = value_extra(reading, item, depth) {
            return Some(extra);
        }
    }
    None
}

#[cycle(extra)]
fn list_extra(
    reading: Reading,
    object: &Map<String, Value>,
    names: &Names,
    depth: u64,
) -> Option<Extra>
    ensures { result ≡ spec.within_list (spec.value_extra reading (spec.txn_extra reading depth))
        (found names.now.plain.now names.now.camel.now (members_view object.now.entries)) }
{
    match array_at(object, names) {
        Some(items) => items_extra(reading, items.as_slice(), depth),
        None => None,
    }
}

#[cycle(extra)]
#[tactic(auto, unfolding(json_model::specs::Extras::txn_extra_by))]
fn extra_within(reading: Reading, object: &Map<String, Value>, depth: u64) -> Option<Extra>
    ensures { result ≡ spec.txn_extra_by reading (spec.txn_extra reading depth) (members_view object.now.entries) }
{
    match list_extra(reading, object, &SUCCESS, depth) {
        Some(extra) => Some(extra),
        None => list_extra(reading, object, &FAILURE, depth),
    }
}

#[cycle(extra)]
#[tactic(auto, using(json_model::proofs::TransactionLemmas::txn_extra_none, json_model::proofs::TransactionLemmas::txn_extra_more))]
fn txn_extra(reading: Reading, object: &Map<String, Value>, depth: u64) -> Option<Extra>
    ensures { result ≡ spec.txn_extra reading depth (members_view object.now.entries) }
{
    if depth == 0 {
        return None;
    }
    extra_within(reading, object, depth - 1)
}

#[tactic(auto, unfolding(json_model::specs::Extras::create_extra))]
fn create_extra(reading: Reading, object: &Map<String, Value>) -> Option<Extra>
    ensures { result ≡ spec.create_extra reading (members_view object.now.entries) }
{
    match extra_if(reading, is_nonzero(object, &WATCH_ID), Extra::WatchId) {
        Some(extra) => Some(extra),
        None => extra_if(reading, is_set(object, &FRAGMENT), Extra::Fragment),
    }
}

#[tactic(auto, unfolding(json_model::specs::Extras::asked_extra))]
fn asked_extra(reading: Reading, object: &Map<String, Value>) -> Option<Extra>
    ensures { result ≡ spec.asked_extra reading (members_view object.now.entries) }
{
    let cancels = is_there(object, &CANCEL_REQUEST);
    match extra_if(reading, cancels, Extra::CancelRequest) {
        Some(extra) => Some(extra),
        None => extra_if(
            reading,
            is_there(object, &PROGRESS_REQUEST),
            Extra::ProgressRequest,
        ),
    }
}

fn inner_create_extra(reading: Reading, object: &Map<String, Value>) -> Option<Extra>
    ensures { result ≡ spec.inner_create_extra reading (members_view object.now.entries) }
{
    match object_at(object, &CREATE_REQUEST) {
        Some(create) => create_extra(reading, create),
        None => None,
    }
}

#[tactic(auto, unfolding(json_model::specs::Extras::watch_extra))]
fn watch_extra(reading: Reading, object: &Map<String, Value>) -> Option<Extra>
    ensures { result ≡ spec.watch_extra reading (members_view object.now.entries) }
{
    match inner_create_extra(reading, object) {
        Some(extra) => Some(extra),
        None => asked_extra(reading, object),
    }
}

/// The first extra of the request that is refused, in the order of its fields.
pub fn extra_in(
    reading: Reading,
    path: Path,
    object: &Map<String, Value>,
    depth: u64,
) -> Option<Extra>
    ensures { result ≡ spec.extra_in reading depth path (members_view object.now.entries) }
{
    match path {
        Path::Put => put_extra(reading, object),
        Path::Txn => txn_extra(reading, object, depth),
        Path::Watch => watch_extra(reading, object),
        _ => None,
    }
}
