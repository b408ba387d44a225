ghost use Rattle.std.specs.Prelude.{◌≡◌, Ok, IfSome};
ghost use Rattle.serde_json.specs.View.{members_view};
ghost use Rattle.json_model.specs.Faults.{GivesReply, of_reply};
ghost use Rattle.json_model.specs.Texts.{without_line_feed, line_object};
ghost use Rattle.json_model.specs.Answers as spec;
ghost use Rattle.json_model.specs.WatchItems as items;

use crate::plain::plain_answer;
use crate::sent::sent_events;
use etcd_types::{Answer, NoMemory, Request, WatchItem};
use json_fields::object_of;
use json_model::NotReply;
use reply_fields::{answer_in, item_in};
use serde_json::{Map, Value};
use std::alloc::Global;

fn without_line_feed(text: &[u8]) -> &[u8]
    ensures { result.now ≡ without_line_feed text.now }
{
    match text {
        [line @ .., b'\n'] => line,
        _ => text,
    }
}

fn line_members(alloc: Global, line: &[u8]) -> Result<Map<String, Value>, NotReply>
    ensures { GivesReply (λ m. members_view m.entries) result (spec.or_unreadable (line_object line.now)) }
{
    match object_of(alloc, without_line_feed(line)) {
        Ok(Some(members)) => Ok(members),
        Ok(None) => Err(NotReply::Unreadable),
        Err(NoMemory) => Err(NotReply::NoMemory),
    }
}

fn answer_among(
    alloc: Global,
    request: &Request,
    status: u16,
    object: &Map<String, Value>,
) -> Result<Answer, NotReply>
    ensures { GivesReply (λ answer. answer) result (of_reply (spec.answer_in request.now status (members_view object.now.entries))) }
{
    match answer_in(alloc, request, status, object) {
        Ok(answer) => Ok(answer),
        Err(fault) => Err(NotReply::from(fault)),
    }
}

fn item_among(alloc: Global, object: &Map<String, Value>) -> Result<WatchItem, NotReply>
    ensures { GivesReply (λ item. item) result (of_reply (items.item_in (members_view object.now.entries))) }
{
    match item_in(alloc, object) {
        Ok(item) => Ok(item),
        Err(fault) => Err(NotReply::from(fault)),
    }
}

#[tactic(auto, unfolding(json_model::specs::Answers::answer_of))]
fn answer_by_value(
    alloc: Global,
    request: &Request,
    status: u16,
    body: &[u8],
) -> Result<Answer, NotReply>
    ensures { GivesReply (λ answer. answer) result (spec.answer_of request.now status body.now) }
{
    let members = line_members(alloc, body)?;
    Ok(answer_among(alloc, request, status, &members)?)
}

/// The answer of a member to this request, from the HTTP status and the body: a reply where the status is 200, else a
/// refusal with a code and a text. A keepalive's reply stands in `result`. Unknown fields are left aside.
///
/// `Unreadable` is told exactly where the body isn't one JSON object in the mapping: a field has another kind or range than
/// the API's, or stands under both its names; a refusal has no code. A watch has no reply with status 200.
pub fn decode_reply(
    alloc: Global,
    request: &Request,
    status: u16,
    body: &[u8],
) -> Result<Answer, NotReply>
    ensures { GivesReply (λ answer. answer) result (spec.answer_of request.now status body.now) }
{
    match plain_answer(request, status, body) {
        Some(answer) => Ok(answer),
        None => answer_by_value(alloc, request, status, body),
    }
}

/// The message with events that stands as etcd writes it.
fn sent_item(alloc: Global, line: &[u8]) -> Option<WatchItem>
    ensures { IfSome result (λ item. items.item_of line.now ≡ Ok item) }
{
    let (header, events) = sent_events(alloc, without_line_feed(line))?;
    Some(WatchItem::Events { header, events })
}

#[tactic(auto, unfolding(json_model::specs::WatchItems::item_of))]
fn item_by_value(alloc: Global, line: &[u8]) -> Result<WatchItem, NotReply>
    ensures { GivesReply (λ item. item) result (items.item_of line.now) }
{
    let members = line_members(alloc, line)?;
    Ok(item_among(alloc, &members)?)
}

/// The message of a watch that a line is, with or without its line feed: `{"result":OBJECT}`. One with `canceled` is a
/// cancellation, else one with `created` tells that the watch began, else it has events, or none. Unknown fields are left
/// aside.
///
/// `Unreadable` is told exactly where the line isn't one JSON object in the mapping. A message with events that stands as
/// etcd writes it takes no memory but that of its events.
pub fn decode_item(alloc: Global, line: &[u8]) -> Result<WatchItem, NotReply>
    ensures { GivesReply (λ item. item) result (items.item_of line.now) }
{
    match sent_item(alloc, line) {
        Some(item) => Ok(item),
        None => item_by_value(alloc, line),
    }
}
