ghost use Rattle.std.specs.Prelude.{◌≡◌, IfOk, ◌++◌, ◌∷◌, [], false};
ghost use Rattle.serde_json.specs.Data.{object};
ghost use Rattle.serde_json.specs.View.{members_view};
ghost use Rattle.serde_json.specs.Written.{members_have_float, compact_text};
ghost use Rattle.json_model.specs.Written.{members_of, object_of};
ghost use Rattle.json_model.specs.WrittenReplies as spec;

use crate::records::put_header;
use crate::responses::put_body_fields;
use direct_json::{item_text, put_reply_text, range_text};
use etcd_types::code::{
    DEADLINE_EXCEEDED, FAILED_PRECONDITION, INVALID_ARGUMENT, NOT_FOUND, OUT_OF_RANGE,
    PERMISSION_DENIED, UNAVAILABLE, UNIMPLEMENTED,
};
use etcd_types::{Answer, Body, Bytes, NoMemory, Refusal, Reply, WatchItem};
use json_fields::{object_text, put_object, put_value};
use serde_json::{Map, Value};
use std::alloc::Global;

/// The HTTP status of a refusal's gRPC code.
fn status_of(code: u32) -> u16
    ensures { result ≡ spec.status_of code }
{
    match code {
        INVALID_ARGUMENT | FAILED_PRECONDITION | OUT_OF_RANGE => 400,
        PERMISSION_DENIED => 403,
        NOT_FOUND => 404,
        UNIMPLEMENTED => 501,
        UNAVAILABLE => 503,
        DEADLINE_EXCEEDED => 504,
        _ => 500,
    }
}

/// The code is a JSON number.
#[tactic(auto, unfolding(json_model::specs::WrittenReplies::refusal_written))]
fn refusal_object(alloc: Global, refusal: &Refusal) -> Result<Map<String, Value>, NoMemory>
    ensures { IfOk result (λ m. members_view m.entries ≡ members_of (spec.refusal_written refusal.now)) }
{
    let mut object = Map::new(alloc);
    put_value(alloc, &mut object, "code", Value::from(refusal.code))?;
    let text = String::from_utf8_lossy(alloc, refusal.text.as_slice())?;
    put_value(alloc, &mut object, "message", Value::String(text))?;
    Ok(object)
}

fn reply_object(alloc: Global, reply: &Reply) -> Result<Map<String, Value>, NoMemory>
    ensures { IfOk result (λ m. members_view m.entries ≡ members_of (spec.header_field reply.now.header ∷ spec.body_fields reply.now.body)) }
{
    let mut object = Map::new(alloc);
    put_header(alloc, &mut object, &reply.header)?;
    put_body_fields(alloc, &mut object, &reply.body)?;
    Ok(object)
}

fn is_keep_alive(body: &Body) -> bool
    ensures { result ≡ spec.is_keep_alive body.now }
{
    matches!(body, Body::KeepAlive { .. })
}

/// The object's text and a line feed.
fn object_line(alloc: Global, fields: Map<String, Value>) -> Result<Bytes, NoMemory>
    ensures { IfOk result (λ b. members_have_float (members_view fields.entries) ≡ false → b ≡ compact_text (object (members_view fields.entries)) ++ 10 ∷ []) }
{
    let value = Value::Object(fields);
    let mut text = value.to_vec(alloc)?;
    text.push(b'\n')?;
    Ok(Bytes::from_vec(text))
}

/// The line of an object in `result`.
#[tactic(auto, using(crate::proofs::NoFloats::within_no_float))]
fn result_line(alloc: Global, fields: Map<String, Value>) -> Result<Bytes, NoMemory>
    ensures { IfOk result (λ b. members_have_float (members_view fields.entries) ≡ false → b ≡ spec.result_text (object (members_view fields.entries))) }
{
    let mut line = Map::new(alloc);
    put_object(alloc, &mut line, "result", fields)?;
    Ok(object_line(alloc, line)?)
}

/// A reply by its object.
#[tactic(auto, using(crate::proofs::NoFloats::reply_no_float))]
fn object_reply_text(alloc: Global, reply: &Reply) -> Result<Bytes, NoMemory>
    ensures { IfOk result (λ b. b ≡ spec.reply_text reply.now) }
{
    let fields = reply_object(alloc, reply)?;
    if is_keep_alive(&reply.body) {
        Ok(result_line(alloc, fields)?)
    } else {
        Ok(object_text(alloc, fields)?)
    }
}

/// The replies of ranges and puts are written without an object, since most requests are answered by them.
fn reply_text(alloc: Global, reply: &Reply) -> Result<Bytes, NoMemory>
    ensures { IfOk result (λ b. b ≡ spec.reply_text reply.now) }
{
    match &reply.body {
        Body::Range { count, more, kvs } => {
            Ok(range_text(alloc, &reply.header, *count, *more, kvs)?)
        }
        Body::Put { prev } => Ok(put_reply_text(alloc, &reply.header, prev)?),
        _ => Ok(object_reply_text(alloc, reply)?),
    }
}

#[tactic(auto, using(crate::proofs::NoFloats::refusal_no_float))]
fn refusal_text(alloc: Global, refusal: &Refusal) -> Result<Bytes, NoMemory>
    ensures { IfOk result (λ b. b ≡ compact_text (object_of (spec.refusal_written refusal.now))) }
{
    let fields = refusal_object(alloc, refusal)?;
    Ok(object_text(alloc, fields)?)
}

/// The HTTP status and the body of an answer. A reply has status 200, a refusal that of its code; a keepalive's reply is a
/// line with its object in `result`.
///
/// Names stand in byte order and defaults are left out. A refusal's text that isn't UTF-8 is written with what isn't
/// replaced. `NoMemory` where memory was wanting.
pub fn encode_reply(alloc: Global, answer: &Answer) -> Result<(u16, Bytes), NoMemory>
    ensures status { IfOk result (λ r. r.0 ≡ spec.answer_status answer.now) }
    ensures text { IfOk result (λ r. r.1 ≡ spec.answer_text answer.now) }
{
    match answer {
        Answer::Done(reply) => Ok((200, reply_text(alloc, reply)?)),
        Answer::Refused(refusal) => Ok((status_of(refusal.code), refusal_text(alloc, refusal)?)),
    }
}

/// The line of a watch's message in the same form: `{"result":OBJECT}` and a line feed. `NoMemory` where memory was wanting.
pub fn encode_item(alloc: Global, item: &WatchItem) -> Result<Bytes, NoMemory>
    ensures { IfOk result (λ b. b ≡ spec.item_text item.now) }
{
    Ok(item_text(alloc, item)?)
}
