//! The fields of requests as they are written, but for transactions.
ghost use Rattle.std.specs.Prelude.{◌≡◌, IfOk, OnOk};
ghost use Rattle.serde_json.specs.View.{items_view, members_view};
ghost use Rattle.json_model.specs.Written.{with_fields, members_of};
ghost use Rattle.json_model.specs.WrittenRequests as spec;

use etcd_types::{DeleteAsk, NoMemory, PutAsk, RangeAsk, WatchAsk};
use json_fields::{put_bytes, put_choice, put_flag, put_list, put_number, put_object};
use json_model::names::{SORT_ORDERS, SORT_TARGETS};
use serde_json::{Map, Value};
use std::alloc::Global;

/// The range, the limit and the revision.
fn put_place(alloc: Global, fields: &mut Map<String, Value>, ask: &RangeAsk) -> Result<(), NoMemory>
    ensures { OnOk result (members_view fields.new.entries ≡ with_fields (members_view fields.old.entries) (spec.place_written ask.now)) }
{
    put_bytes(alloc, fields, "key", &ask.range.key)?;
    put_bytes(alloc, fields, "range_end", &ask.range.end)?;
    put_number(alloc, fields, "limit", ask.limit)?;
    put_number(alloc, fields, "revision", ask.revision)?;
    Ok(())
}

/// The order and the target of sorting.
fn put_sort(alloc: Global, fields: &mut Map<String, Value>, ask: &RangeAsk) -> Result<(), NoMemory>
    ensures { OnOk result (members_view fields.new.entries ≡ with_fields (members_view fields.old.entries) (spec.sort_written ask.now)) }
{
    put_choice(alloc, fields, "sort_order", SORT_ORDERS, ask.sort.order)?;
    put_choice(alloc, fields, "sort_target", SORT_TARGETS, ask.sort.target)?;
    Ok(())
}

/// Serializable, keys only, count only.
fn put_range_flags(
    alloc: Global,
    fields: &mut Map<String, Value>,
    ask: &RangeAsk,
) -> Result<(), NoMemory>
    ensures { OnOk result (members_view fields.new.entries ≡ with_fields (members_view fields.old.entries) (spec.flags_written ask.now)) }
{
    put_flag(alloc, fields, "serializable", ask.serializable)?;
    put_flag(alloc, fields, "keys_only", ask.keys_only)?;
    put_flag(alloc, fields, "count_only", ask.count_only)?;
    Ok(())
}

/// The least and the greatest mod revision, and the same of the create revision.
fn put_bounds(
    alloc: Global,
    fields: &mut Map<String, Value>,
    ask: &RangeAsk,
) -> Result<(), NoMemory>
    ensures { OnOk result (members_view fields.new.entries ≡ with_fields (members_view fields.old.entries) (spec.bounds_written ask.now)) }
{
    put_number(alloc, fields, "min_mod_revision", ask.sort.min_mod)?;
    put_number(alloc, fields, "max_mod_revision", ask.sort.max_mod)?;
    put_number(alloc, fields, "min_create_revision", ask.sort.min_create)?;
    put_number(alloc, fields, "max_create_revision", ask.sort.max_create)?;
    Ok(())
}

#[tactic(auto, unfolding(json_model::specs::WrittenRequests::range_written))]
pub(crate) fn range_fields(alloc: Global, ask: &RangeAsk) -> Result<Map<String, Value>, NoMemory>
    ensures { IfOk result (λ m. members_view m.entries ≡ members_of (spec.range_written ask.now)) }
{
    let mut fields = Map::new(alloc);
    put_place(alloc, &mut fields, ask)?;
    put_sort(alloc, &mut fields, ask)?;
    put_range_flags(alloc, &mut fields, ask)?;
    put_bounds(alloc, &mut fields, ask)?;
    Ok(fields)
}

#[tactic(auto, unfolding(json_model::specs::WrittenRequests::put_written))]
pub(crate) fn put_fields(alloc: Global, ask: &PutAsk) -> Result<Map<String, Value>, NoMemory>
    ensures { IfOk result (λ m. members_view m.entries ≡ members_of (spec.put_written ask.now)) }
{
    let mut fields = Map::new(alloc);
    put_bytes(alloc, &mut fields, "key", &ask.key)?;
    put_bytes(alloc, &mut fields, "value", &ask.value)?;
    put_number(alloc, &mut fields, "lease", ask.lease)?;
    put_flag(alloc, &mut fields, "prev_kv", ask.prev_kv)?;
    put_flag(alloc, &mut fields, "ignore_lease", ask.ignore_lease)?;
    Ok(fields)
}

#[tactic(auto, unfolding(json_model::specs::WrittenRequests::delete_written))]
pub(crate) fn delete_fields(alloc: Global, ask: &DeleteAsk) -> Result<Map<String, Value>, NoMemory>
    ensures { IfOk result (λ m. members_view m.entries ≡ members_of (spec.delete_written ask.now)) }
{
    let mut fields = Map::new(alloc);
    put_bytes(alloc, &mut fields, "key", &ask.range.key)?;
    put_bytes(alloc, &mut fields, "range_end", &ask.range.end)?;
    put_flag(alloc, &mut fields, "prev_kv", ask.prev_kv)?;
    Ok(fields)
}

#[tactic(auto, unfolding(json_model::specs::WrittenRequests::compact_written))]
pub(crate) fn compact_fields(
    alloc: Global,
    revision: u64,
    physical: bool,
) -> Result<Map<String, Value>, NoMemory>
    ensures { IfOk result (λ m. members_view m.entries ≡ members_of (spec.compact_written revision physical)) }
{
    let mut fields = Map::new(alloc);
    put_number(alloc, &mut fields, "revision", revision)?;
    put_flag(alloc, &mut fields, "physical", physical)?;
    Ok(fields)
}

#[tactic(auto, unfolding(json_model::specs::WrittenRequests::grant_written))]
pub(crate) fn grant_fields(
    alloc: Global,
    ttl: u64,
    lease: u64,
) -> Result<Map<String, Value>, NoMemory>
    ensures { IfOk result (λ m. members_view m.entries ≡ members_of (spec.grant_written ttl lease)) }
{
    let mut fields = Map::new(alloc);
    put_number(alloc, &mut fields, "TTL", ttl)?;
    put_number(alloc, &mut fields, "ID", lease)?;
    Ok(fields)
}

#[tactic(auto, unfolding(json_model::specs::WrittenRequests::lease_written))]
pub(crate) fn lease_fields(alloc: Global, lease: u64) -> Result<Map<String, Value>, NoMemory>
    ensures { IfOk result (λ m. members_view m.entries ≡ members_of (spec.lease_written lease)) }
{
    let mut fields = Map::new(alloc);
    put_number(alloc, &mut fields, "ID", lease)?;
    Ok(fields)
}

#[tactic(auto, unfolding(json_model::specs::WrittenRequests::time_to_live_written))]
pub(crate) fn time_to_live_fields(
    alloc: Global,
    lease: u64,
    keys: bool,
) -> Result<Map<String, Value>, NoMemory>
    ensures { IfOk result (λ m. members_view m.entries ≡ members_of (spec.time_to_live_written lease keys)) }
{
    let mut fields = Map::new(alloc);
    put_number(alloc, &mut fields, "ID", lease)?;
    put_flag(alloc, &mut fields, "keys", keys)?;
    Ok(fields)
}

fn filter_names(alloc: Global, ask: &WatchAsk) -> Result<Vec<Value>, NoMemory>
    ensures { IfOk result (λ names. items_view names.items ≡ spec.filter_items ask.now) }
{
    let mut names = Vec::new(alloc);
    if ask.no_put {
        names.push(Value::try_from_str(alloc, "NOPUT")?)?;
    }
    if ask.no_delete {
        names.push(Value::try_from_str(alloc, "NODELETE")?)?;
    }
    Ok(names)
}

#[tactic(auto, unfolding(json_model::specs::WrittenRequests::create_written))]
fn create_fields(alloc: Global, ask: &WatchAsk) -> Result<Map<String, Value>, NoMemory>
    ensures { IfOk result (λ m. members_view m.entries ≡ members_of (spec.create_written ask.now)) }
{
    let mut fields = Map::new(alloc);
    put_bytes(alloc, &mut fields, "key", &ask.range.key)?;
    put_bytes(alloc, &mut fields, "range_end", &ask.range.end)?;
    put_number(alloc, &mut fields, "start_revision", ask.start)?;
    put_flag(alloc, &mut fields, "progress_notify", ask.progress)?;
    let filters = filter_names(alloc, ask)?;
    put_list(alloc, &mut fields, "filters", filters)?;
    put_flag(alloc, &mut fields, "prev_kv", ask.prev_kv)?;
    Ok(fields)
}

/// A watch's fields stand in its `create_request`.
#[tactic(auto, unfolding(json_model::specs::WrittenRequests::watch_written))]
pub(crate) fn watch_fields(alloc: Global, ask: &WatchAsk) -> Result<Map<String, Value>, NoMemory>
    ensures { IfOk result (λ m. members_view m.entries ≡ members_of (spec.watch_written ask.now)) }
{
    let create = create_fields(alloc, ask)?;
    let mut fields = Map::new(alloc);
    put_object(alloc, &mut fields, "create_request", create)?;
    Ok(fields)
}
