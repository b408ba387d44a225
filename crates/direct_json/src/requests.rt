//! Requests, written from left to right.
ghost use Rattle.std.specs.Prelude.{◌≡◌, IfOk, OnOk};
ghost use Rattle.etcd_types.specs.declared.request.Request.TheVariants as request;
ghost use Rattle.json_model.specs.Written.{object_of};
ghost use Rattle.json_model.specs.WrittenRequests as spec;
ghost use Rattle.direct_json.specs.Drafts.{with_item};

use crate::draft::Draft;
use etcd_types::{Bytes, NoMemory, PutAsk, RangeAsk};
use std::alloc::Global;

fn draft_range_ask(draft: &mut Draft, ask: &RangeAsk) -> Result<(), NoMemory>
    requires order { ask.now.sort.order ≡ 0 }
    requires target { ask.now.sort.target ≡ 0 }
    ensures { OnOk result (draft.new ≡ with_item (object_of (spec.range_written ask.now)) draft.old) }
{
    draft.begin(b",{")?;
    draft.flag(b",\"count_only\":true", ask.count_only)?;
    draft.bytes(b",\"key\":\"", &ask.range.key)?;
    draft.flag(b",\"keys_only\":true", ask.keys_only)?;
    draft.number(b",\"limit\":\"", ask.limit)?;
    draft.number(b",\"max_create_revision\":\"", ask.sort.max_create)?;
    draft.number(b",\"max_mod_revision\":\"", ask.sort.max_mod)?;
    draft.number(b",\"min_create_revision\":\"", ask.sort.min_create)?;
    draft.number(b",\"min_mod_revision\":\"", ask.sort.min_mod)?;
    draft.bytes(b",\"range_end\":\"", &ask.range.end)?;
    draft.number(b",\"revision\":\"", ask.revision)?;
    draft.flag(b",\"serializable\":true", ask.serializable)?;
    Ok(draft.end(b'}')?)
}

/// A range that isn't to be sorted, as text: names in byte order, defaults left out. `NoMemory` where memory was wanting.
pub fn range_request_text(alloc: Global, ask: &RangeAsk) -> Result<Bytes, NoMemory>
    requires order { ask.now.sort.order ≡ 0 }
    requires target { ask.now.sort.target ≡ 0 }
    ensures { IfOk result (λ b. b ≡ spec.request_text (request.Range ask.now)) }
{
    let mut draft = Draft::new(alloc)?;
    draft_range_ask(&mut draft, ask)?;
    Ok(draft.into_bytes())
}

fn draft_put_ask(draft: &mut Draft, ask: &PutAsk) -> Result<(), NoMemory>
    ensures { OnOk result (draft.new ≡ with_item (object_of (spec.put_written ask.now)) draft.old) }
{
    draft.begin(b",{")?;
    draft.flag(b",\"ignore_lease\":true", ask.ignore_lease)?;
    draft.bytes(b",\"key\":\"", &ask.key)?;
    draft.number(b",\"lease\":\"", ask.lease)?;
    draft.flag(b",\"prev_kv\":true", ask.prev_kv)?;
    draft.bytes(b",\"value\":\"", &ask.value)?;
    Ok(draft.end(b'}')?)
}

/// A put as text: names in byte order, defaults left out. `NoMemory` where memory was wanting.
pub fn put_request_text(alloc: Global, ask: &PutAsk) -> Result<Bytes, NoMemory>
    ensures { IfOk result (λ b. b ≡ spec.request_text (request.Put ask.now)) }
{
    let mut draft = Draft::new(alloc)?;
    draft_put_ask(&mut draft, ask)?;
    Ok(draft.into_bytes())
}
