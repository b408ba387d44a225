//! The messages of watches, written from left to right.
ghost use Rattle.std.specs.Prelude.{◌≡◌, codes, IfOk, OnOk};
ghost use Rattle.json_model.specs.FieldNames as names;
ghost use Rattle.json_model.specs.Written.{list_value, items_of, object_of};
ghost use Rattle.json_model.specs.WrittenReplies as spec;
ghost use Rattle.direct_json.specs.Drafts.{begun, ended, with_field, with_member, with_item, with_items};

use crate::draft::Draft;
use crate::replies::{draft_header, draft_kv, draft_prev};
use etcd_types::{Bytes, Change, Event, Header, Kv, List, NoMemory, WatchItem};
use std::alloc::Global;

fn draft_put(draft: &mut Draft, kv: &Kv, prev: &Option<Kv>) -> Result<(), NoMemory>
    ensures { OnOk result (draft.new ≡ with_item (object_of (spec.put_event_written kv.now prev.now)) draft.old) }
{
    draft.begin(b",{")?;
    draft_kv(draft, kv)?;
    draft_prev(draft, prev)?;
    Ok(draft.end(b'}')?)
}

/// A deletion tells its key and its revision alone.
fn draft_deleted(draft: &mut Draft, key: &Bytes, modified: u64) -> Result<(), NoMemory>
    ensures { OnOk result (draft.new ≡ with_member names.kv.0 (object_of (spec.deleted_written key.now modified)) draft.old) }
{
    draft.begin(b",\"kv\":{")?;
    draft.bytes(b",\"key\":\"", key)?;
    draft.number(b",\"mod_revision\":\"", modified)?;
    Ok(draft.end(b'}')?)
}

fn draft_delete(
    draft: &mut Draft,
    key: &Bytes,
    modified: u64,
    prev: &Option<Kv>,
) -> Result<(), NoMemory>
    ensures { OnOk result (draft.new ≡ with_item (object_of (spec.delete_event_written key.now modified prev.now)) draft.old) }
{
    draft.begin(b",{")?;
    draft_deleted(draft, key, modified)?;
    draft_prev(draft, prev)?;
    draft.whole(b",\"type\":\"DELETE\"")?;
    Ok(draft.end(b'}')?)
}

fn draft_event(draft: &mut Draft, event: &Event) -> Result<(), NoMemory>
    ensures { OnOk result (draft.new ≡ with_item (spec.event_value event.now) draft.old) }
{
    match &event.change {
        Change::Put(kv) => Ok(draft_put(draft, kv, &event.prev)?),
        Change::Delete { key, modified } => Ok(draft_delete(draft, key, *modified, &event.prev)?),
    }
}

fn draft_each(draft: &mut Draft, events: &List<Event>) -> Result<(), NoMemory>
    ensures { OnOk result (draft.new ≡ with_items (items_of spec.event_value events.now) draft.old) }
{
    for event in events.as_slice() {
        draft_event(draft, event)?;
    }
    Ok(())
}

/// The events of a message, where there are any.
fn draft_list(draft: &mut Draft, events: &List<Event>) -> Result<(), NoMemory>
    ensures { OnOk result (draft.new ≡ with_field (names.events.0, list_value (items_of spec.event_value events.now)) draft.old) }
{
    if events.as_slice().is_empty() {
        return Ok(());
    }
    draft.begin(b",\"events\":[")?;
    draft_each(draft, events)?;
    Ok(draft.end(b']')?)
}

fn draft_created(draft: &mut Draft, header: &Header) -> Result<(), NoMemory>
    ensures { OnOk result (draft.new ≡ with_member names.result.0 (object_of (spec.created_written header.now)) draft.old) }
{
    draft.begin(b",\"result\":{")?;
    draft.whole(b",\"created\":true")?;
    draft_header(draft, header)?;
    Ok(draft.end(b'}')?)
}

fn draft_events(draft: &mut Draft, header: &Header, events: &List<Event>) -> Result<(), NoMemory>
    ensures { OnOk result (draft.new ≡ with_member names.result.0 (object_of (spec.events_written header.now events.now)) draft.old) }
{
    draft.begin(b",\"result\":{")?;
    draft_list(draft, events)?;
    draft_header(draft, header)?;
    Ok(draft.end(b'}')?)
}

fn draft_canceled(draft: &mut Draft, header: &Header, compact: u64) -> Result<(), NoMemory>
    ensures { OnOk result (draft.new ≡ with_member names.result.0 (object_of (spec.canceled_written header.now compact)) draft.old) }
{
    draft.begin(b",\"result\":{")?;
    draft.whole(b",\"canceled\":true")?;
    draft.number(b",\"compact_revision\":\"", compact)?;
    draft_header(draft, header)?;
    Ok(draft.end(b'}')?)
}

/// The message in `result`.
fn draft_message(draft: &mut Draft, item: &WatchItem) -> Result<(), NoMemory>
    ensures { OnOk result (draft.new ≡ with_member names.result.0 (object_of (spec.item_written item.now)) draft.old) }
{
    match item {
        WatchItem::Created(header) => Ok(draft_created(draft, header)?),
        WatchItem::Events { header, events } => Ok(draft_events(draft, header, events)?),
        WatchItem::Canceled { header, compact } => Ok(draft_canceled(draft, header, *compact)?),
    }
}

fn draft_line(draft: &mut Draft, item: &WatchItem) -> Result<(), NoMemory>
    ensures { OnOk result (draft.new ≡ ended 10 (ended 125 (with_member names.result.0 (object_of (spec.item_written item.now)) (begun (codes ",{") draft.old)))) }
{
    draft.begin(b",{")?;
    draft_message(draft, item)?;
    draft.end(b'}')?;
    Ok(draft.end(b'\n')?)
}

/// The line of a watch's message, `{"result":OBJECT}` and a line feed: names in byte order, defaults left out. `NoMemory`
/// where memory was wanting.
pub fn item_text(alloc: Global, item: &WatchItem) -> Result<Bytes, NoMemory>
    ensures { IfOk result (λ b. b ≡ spec.item_text item.now) }
{
    let mut draft = Draft::new(alloc)?;
    draft_line(&mut draft, item)?;
    Ok(draft.into_bytes())
}
