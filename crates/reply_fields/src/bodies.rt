//! What the replies to ranges, puts and deletes say, without their headers.
ghost use Rattle.serde_json.specs.View.{members_view};
ghost use Rattle.json_model.specs.Faults.{Gives};
ghost use Rattle.json_model.specs.Replies as spec;

use crate::known::{once_delete_reply_fields, once_put_reply_fields};
use crate::records::{prev_in, records_at};
use etcd_types::Body;
use json_fields::{FieldFault, flag, number};
use json_model::names::*;
use json_model::reply_names::*;
use serde_json::{Map, Value};
use std::alloc::Global;

#[tactic(auto, unfolding(json_model::specs::Replies::range_body))]
pub(crate) fn range_body(alloc: Global, object: &Map<String, Value>) -> Result<Body, FieldFault>
    ensures { Gives (λ body. body) result (spec.range_body (members_view object.now.entries)) }
{
    let kvs = records_at(alloc, object, &KVS)?;
    let more = flag(alloc, object, &MORE)?;
    let count = number(alloc, object, &COUNT)?;
    Ok(Body::Range { count, more, kvs })
}

#[tactic(auto, unfolding(json_model::specs::Replies::put_body))]
pub(crate) fn put_body(alloc: Global, object: &Map<String, Value>) -> Result<Body, FieldFault>
    ensures { Gives (λ body. body) result (spec.put_body (members_view object.now.entries)) }
{
    once_put_reply_fields(alloc, object)?;
    let prev = prev_in(alloc, object)?;
    Ok(Body::Put { prev })
}

#[tactic(auto, unfolding(json_model::specs::Replies::delete_body))]
pub(crate) fn delete_body(alloc: Global, object: &Map<String, Value>) -> Result<Body, FieldFault>
    ensures { Gives (λ body. body) result (spec.delete_body (members_view object.now.entries)) }
{
    once_delete_reply_fields(alloc, object)?;
    let deleted = number(alloc, object, &DELETED)?;
    let prevs = records_at(alloc, object, &PREV_KVS)?;
    Ok(Body::Delete { deleted, prevs })
}
