//! Headers, records and the replies of ranges and puts, written from left to right.
ghost use Rattle.std.specs.Prelude.{◌≡◌, ◌≤◌, ◌∷◌, length, IfOk, OnOk};
ghost use Rattle.serde_json.specs.Written.{compact_text};
ghost use Rattle.json_model.specs.FieldNames as names;
ghost use Rattle.json_model.specs.Written.{list_value, items_of, object_of};
ghost use Rattle.json_model.specs.WrittenReplies as spec;
ghost use Rattle.direct_json.specs.Drafts.{begun, ended, with_field, with_member, with_item, with_items};
ghost use Rattle.direct_json.specs.Parts.{with_parts};
ghost use Rattle.direct_json.specs.RecordParts.{record_parts};

use crate::draft::Draft;
use etcd_types::{Bytes, Header, Kv, List, NoMemory};
use std::alloc::Global;

/// The header, also where all its numbers are 0.
pub(crate) fn draft_header(draft: &mut Draft, header: &Header) -> Result<(), NoMemory>
    ensures { OnOk result (draft.new ≡ with_field (spec.header_field header.now) draft.old) }
{
    draft.begin(b",\"header\":{")?;
    draft.number(b",\"cluster_id\":\"", header.cluster)?;
    draft.number(b",\"member_id\":\"", header.member)?;
    draft.number(b",\"raft_term\":\"", header.term)?;
    draft.number(b",\"revision\":\"", header.revision)?;
    Ok(draft.end(b'}')?)
}

fn draft_record(draft: &mut Draft, opening: &[u8], kv: &Kv) -> Result<(), NoMemory>
    requires { 1 ≤ length opening.now }
    ensures { OnOk result (draft.new ≡ ended 125 (with_parts (record_parts kv.now) (begun opening.now draft.old))) }
{
    draft.begin(opening)?;
    draft.number(b",\"create_revision\":\"", kv.create)?;
    draft.bytes(b",\"key\":\"", &kv.key)?;
    draft.number(b",\"lease\":\"", kv.lease)?;
    draft.number(b",\"mod_revision\":\"", kv.modified)?;
    draft.bytes(b",\"value\":\"", &kv.value)?;
    draft.number(b",\"version\":\"", kv.version)?;
    Ok(draft.end(b'}')?)
}

/// The record of an event.
pub(crate) fn draft_kv(draft: &mut Draft, kv: &Kv) -> Result<(), NoMemory>
    ensures { OnOk result (draft.new ≡ with_member names.kv.0 (spec.record_value kv.now) draft.old) }
{
    Ok(draft_record(draft, b",\"kv\":{", kv)?)
}

/// The record before a change, where there is one.
pub(crate) fn draft_prev(draft: &mut Draft, prev: &Option<Kv>) -> Result<(), NoMemory>
    ensures { OnOk result (draft.new ≡ with_field (names.prev_kv.0, spec.prev_value prev.now) draft.old) }
{
    match prev {
        None => Ok(()),
        Some(kv) => Ok(draft_record(draft, b",\"prev_kv\":{", kv)?),
    }
}

/// A record of a list.
fn draft_item(draft: &mut Draft, kv: &Kv) -> Result<(), NoMemory>
    ensures { OnOk result (draft.new ≡ with_item (spec.record_value kv.now) draft.old) }
{
    Ok(draft_record(draft, b",{", kv)?)
}

fn draft_items(draft: &mut Draft, kvs: &List<Kv>) -> Result<(), NoMemory>
    ensures { OnOk result (draft.new ≡ with_items (items_of spec.record_value kvs.now) draft.old) }
{
    for kv in kvs.as_slice() {
        draft_item(draft, kv)?;
    }
    Ok(())
}

/// The records of a range, where there are any.
fn draft_kvs(draft: &mut Draft, kvs: &List<Kv>) -> Result<(), NoMemory>
    ensures { OnOk result (draft.new ≡ with_field (names.kvs.0, list_value (items_of spec.record_value kvs.now)) draft.old) }
{
    if kvs.as_slice().is_empty() {
        return Ok(());
    }
    draft.begin(b",\"kvs\":[")?;
    draft_items(draft, kvs)?;
    Ok(draft.end(b']')?)
}

fn draft_range(
    draft: &mut Draft,
    header: &Header,
    count: u64,
    more: bool,
    kvs: &List<Kv>,
) -> Result<(), NoMemory>
    ensures { OnOk result (draft.new ≡ with_item (object_of (spec.header_field header.now ∷ spec.range_fields_of count more kvs.now)) draft.old) }
{
    draft.begin(b",{")?;
    draft.number(b",\"count\":\"", count)?;
    draft_header(draft, header)?;
    draft_kvs(draft, kvs)?;
    draft.flag(b",\"more\":true", more)?;
    Ok(draft.end(b'}')?)
}

/// The reply of a range as text: names in byte order, defaults left out. `NoMemory` where memory was wanting.
pub fn range_text(
    alloc: Global,
    header: &Header,
    count: u64,
    more: bool,
    kvs: &List<Kv>,
) -> Result<Bytes, NoMemory>
    ensures { IfOk result (λ b. b ≡ compact_text (object_of (spec.header_field header.now ∷ spec.range_fields_of count more kvs.now))) }
{
    let mut draft = Draft::new(alloc)?;
    draft_range(&mut draft, header, count, more, kvs)?;
    Ok(draft.into_bytes())
}

fn draft_put_reply(draft: &mut Draft, header: &Header, prev: &Option<Kv>) -> Result<(), NoMemory>
    ensures { OnOk result (draft.new ≡ with_item (object_of (spec.header_field header.now ∷ spec.put_fields_of prev.now)) draft.old) }
{
    draft.begin(b",{")?;
    draft_header(draft, header)?;
    draft_prev(draft, prev)?;
    Ok(draft.end(b'}')?)
}

/// The reply of a put as text, with the record before it where there is one: names in byte order, defaults left out.
/// `NoMemory` where memory was wanting.
pub fn put_reply_text(alloc: Global, header: &Header, prev: &Option<Kv>) -> Result<Bytes, NoMemory>
    ensures { IfOk result (λ b. b ≡ compact_text (object_of (spec.header_field header.now ∷ spec.put_fields_of prev.now))) }
{
    let mut draft = Draft::new(alloc)?;
    draft_put_reply(&mut draft, header, prev)?;
    Ok(draft.into_bytes())
}
