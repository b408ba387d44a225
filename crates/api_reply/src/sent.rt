//! A watch's message with events, read without a JSON value where it stands in the form in which etcd writes it: its memory is
//! that of the events.
ghost use Rattle.std.specs.Prelude.{◌≡◌, ◌==◌, ◌++◌, ◌∷◌, [], false, decimal, IfSome};
ghost use Rattle.std.specs.List.{AllByRecursion};
ghost use Rattle.base64.specs.Engines.{standard};
ghost use Rattle.base64.specs.GeneralPurpose.{IsBytes, encode_of};
ghost use Rattle.etcd_types.specs.Keys.{is_empty};
ghost use Rattle.json_model.specs.Fits.{IsNumber};
ghost use Rattle.api_reply.specs.SentTexts as spec;

use crate::plain::{after, number_before};
use base64::engine::general_purpose::STANDARD;
use etcd_types::{Bytes, Change, Event, Header, Kv, List, NoMemory};
use json_model::NUMBER_MAX;
use memchr::memchr;
use std::alloc::Global;

// ---- numbers and bytes

/// The number with which the text begins, which isn't 0, and what stands behind its quotation mark.
fn digits_first(text: &[u8]) -> Option<(u64, &[u8])>
    ensures text { IfSome result (λ parts. text.now ≡ decimal parts.0 ++ (34 ∷ parts.1.now)) }
    ensures some { IfSome result (λ parts. (parts.0 == 0) ≡ false) }
{
    let (number, rest) = number_before(text, b"\"")?;
    if number == 0 {
        return None;
    }
    Some((number, rest))
}

/// The number behind the opening, which isn't 0.
fn some_number<'a>(text: &'a [u8], opening: &[u8]) -> Option<(u64, &'a [u8])>
    ensures text { IfSome result (λ parts. text.now ≡ spec.number_then opening.now parts.0 parts.1.now) }
    ensures some { IfSome result (λ parts. (parts.0 == 0) ≡ false) }
{
    let rest = after(text, opening)?;
    let (number, rest) = digits_first(rest)?;
    Some((number, rest))
}

/// The number behind the opening, and 0 where the text doesn't begin with it.
fn number_if<'a>(text: &'a [u8], opening: &[u8]) -> Option<(u64, &'a [u8])>
    ensures { IfSome result (λ parts. text.now ≡ spec.number_then opening.now parts.0 parts.1.now) }
{
    if text.starts_with(opening) {
        let (number, rest) = some_number(text, opening)?;
        Some((number, rest))
    } else {
        Some((0, text))
    }
}

/// The same of a number that the API tells with a sign.
fn revision_if<'a>(text: &'a [u8], opening: &[u8]) -> Option<(u64, &'a [u8])>
    ensures text { IfSome result (λ parts. text.now ≡ spec.number_then opening.now parts.0 parts.1.now) }
    ensures fits { IfSome result (λ parts. IsNumber parts.0) }
{
    let (number, rest) = number_if(text, opening)?;
    if number > NUMBER_MAX {
        return None;
    }
    Some((number, rest))
}

/// The bytes whose base64 text this is, where there are any and memory suffices.
fn bytes_of(alloc: Global, text: &[u8]) -> Option<Bytes>
    ensures text { IfSome result (λ bytes. text.now ≡ encode_of standard bytes) }
    ensures bytes { IfSome result (λ bytes. IsBytes bytes) }
    ensures some { IfSome result (λ bytes. is_empty bytes ≡ false) }
{
    match STANDARD.decode(alloc, text) {
        Ok(bytes) if !bytes.as_slice().is_empty() => Some(Bytes::from_vec(bytes)),
        _ => None,
    }
}

/// The bytes with whose text this begins, and what stands behind its quotation mark. The first one ends it, since base64 has
/// none.
fn base64_first(alloc: Global, text: &[u8]) -> Option<(Bytes, &[u8])>
    ensures text { IfSome result (λ parts. text.now ≡ encode_of standard parts.0 ++ (34 ∷ parts.1.now)) }
    ensures bytes { IfSome result (λ parts. IsBytes parts.0) }
    ensures some { IfSome result (λ parts. is_empty parts.0 ≡ false) }
{
    let end = memchr(b'"', text)?;
    let (front, rest) = text.split_at(end);
    let rest = after(rest, b"\"")?;
    let bytes = bytes_of(alloc, front)?;
    Some((bytes, rest))
}

/// The bytes behind the opening, of which there are some.
fn some_bytes<'a>(alloc: Global, text: &'a [u8], opening: &[u8]) -> Option<(Bytes, &'a [u8])>
    ensures text { IfSome result (λ parts. text.now ≡ spec.bytes_then opening.now parts.0 parts.1.now) }
    ensures bytes { IfSome result (λ parts. IsBytes parts.0) }
    ensures some { IfSome result (λ parts. is_empty parts.0 ≡ false) }
{
    let rest = after(text, opening)?;
    let (bytes, rest) = base64_first(alloc, rest)?;
    Some((bytes, rest))
}

/// The bytes behind the opening, and none where the text doesn't begin with it.
fn bytes_if<'a>(alloc: Global, text: &'a [u8], opening: &[u8]) -> Option<(Bytes, &'a [u8])>
    ensures text { IfSome result (λ parts. text.now ≡ spec.bytes_then opening.now parts.0 parts.1.now) }
    ensures bytes { IfSome result (λ parts. IsBytes parts.0) }
{
    if text.starts_with(opening) {
        let (bytes, rest) = some_bytes(alloc, text, opening)?;
        Some((bytes, rest))
    } else {
        Some((Bytes::new(alloc), text))
    }
}

// ---- headers and records

fn header_first(text: &[u8]) -> Option<(Header, &[u8])>
    ensures text { IfSome result (λ parts. text.now ≡ spec.header_then parts.0 parts.1.now) }
    ensures sent { IfSome result (λ parts. spec.HeaderSent parts.0) }
{
    let (cluster, rest) = some_number(text, b"{\"result\":{\"header\":{\"cluster_id\":\"")?;
    let (member, rest) = number_if(rest, b",\"member_id\":\"")?;
    let (revision, rest) = revision_if(rest, b",\"revision\":\"")?;
    let (term, rest) = revision_if(rest, b",\"raft_term\":\"")?;
    let rest = after(rest, b"}")?;
    let header = Header {
        cluster,
        member,
        revision,
        term,
    };
    Some((header, rest))
}

/// The record whose key's text stands behind the opening.
fn some_record<'a>(alloc: Global, text: &'a [u8], opening: &[u8]) -> Option<(Kv, &'a [u8])>
    ensures text { IfSome result (λ parts. text.now ≡ spec.record_then opening.now parts.0 parts.1.now) }
    ensures sent { IfSome result (λ parts. spec.RecordSent parts.0) }
{
    let (key, rest) = some_bytes(alloc, text, opening)?;
    let (create, rest) = revision_if(rest, b",\"create_revision\":\"")?;
    let (modified, rest) = revision_if(rest, b",\"mod_revision\":\"")?;
    let (version, rest) = revision_if(rest, b",\"version\":\"")?;
    let (value, rest) = bytes_if(alloc, rest, b",\"value\":\"")?;
    let (lease, rest) = revision_if(rest, b",\"lease\":\"")?;
    let rest = after(rest, b"}")?;
    let record = Kv {
        key,
        value,
        create,
        modified,
        version,
        lease,
    };
    Some((record, rest))
}

// ---- events

fn put_first(alloc: Global, text: &[u8]) -> Option<(Change, &[u8])>
    ensures text { IfSome result (λ parts. text.now ≡ spec.change_then parts.0 parts.1.now) }
    ensures sent { IfSome result (λ parts. spec.ChangeSent parts.0) }
{
    let (record, rest) = some_record(alloc, text, b"{\"kv\":{\"key\":\"")?;
    Some((Change::Put(record), rest))
}

fn deletion_first(alloc: Global, text: &[u8]) -> Option<(Change, &[u8])>
    ensures text { IfSome result (λ parts. text.now ≡ spec.change_then parts.0 parts.1.now) }
    ensures sent { IfSome result (λ parts. spec.ChangeSent parts.0) }
{
    let (key, rest) = some_bytes(alloc, text, b"{\"type\":\"DELETE\",\"kv\":{\"key\":\"")?;
    let (modified, rest) = revision_if(rest, b",\"mod_revision\":\"")?;
    let rest = after(rest, b"}")?;
    Some((Change::Delete { key, modified }, rest))
}

/// A deletion tells its kind first, a put has none.
fn change_first(alloc: Global, text: &[u8]) -> Option<(Change, &[u8])>
    ensures text { IfSome result (λ parts. text.now ≡ spec.change_then parts.0 parts.1.now) }
    ensures sent { IfSome result (λ parts. spec.ChangeSent parts.0) }
{
    if text.starts_with(b"{\"type\"") {
        Some(deletion_first(alloc, text)?)
    } else {
        Some(put_first(alloc, text)?)
    }
}

/// The record before a change, where one is told.
fn prev_if(alloc: Global, text: &[u8]) -> Option<(Option<Kv>, &[u8])>
    ensures text { IfSome result (λ parts. text.now ≡ spec.prev_then parts.0 parts.1.now) }
    ensures sent { IfSome result (λ parts. spec.PrevSent parts.0) }
{
    if text.starts_with(b",\"prev_kv\"") {
        let (record, rest) = some_record(alloc, text, b",\"prev_kv\":{\"key\":\"")?;
        Some((Some(record), rest))
    } else {
        Some((None, text))
    }
}

fn event_first(alloc: Global, text: &[u8]) -> Option<(Event, &[u8])>
    ensures text { IfSome result (λ parts. text.now ≡ spec.event_then parts.0 parts.1.now) }
    ensures sent { IfSome result (λ parts. spec.EventSent parts.0) }
{
    let (change, rest) = change_first(alloc, text)?;
    let (prev, rest) = prev_if(alloc, rest)?;
    let rest = after(rest, b"}")?;
    Some((Event { change, prev }, rest))
}

fn pushed(events: &mut List<Event>, event: Event) -> Option<()>
    ensures { IfSome result (λ _. events.new ≡ events.old ++ event ∷ []) }
{
    match events.push(event) {
        Ok(()) => Some(()),
        Err(NoMemory) => None,
    }
}

/// The events with which the text begins, a comma between two.
fn listed_first(alloc: Global, text: &[u8]) -> Option<(List<Event>, &[u8])>
    ensures text { IfSome result (λ parts. text.now ≡ spec.listed_then parts.0 parts.1.now) }
    ensures sent { IfSome result (λ parts. AllByRecursion spec.EventSent parts.0) }
    ensures some { IfSome result (λ parts. spec.is_none parts.0 ≡ false) }
{
    let (first, behind) = event_first(alloc, text)?;
    let mut rest = behind;
    let mut events = List::new(alloc);
    pushed(&mut events, first)?;
    while let Some(next) = after(rest, b",") {
        let (event, behind) = event_first(alloc, next)?;
        pushed(&mut events, event)?;
        rest = behind;
    }
    Some((events, rest))
}

/// The events of a message, where it has any.
fn events_if(alloc: Global, text: &[u8]) -> Option<(List<Event>, &[u8])>
    ensures text { IfSome result (λ parts. text.now ≡ spec.events_then parts.0 parts.1.now) }
    ensures sent { IfSome result (λ parts. AllByRecursion spec.EventSent parts.0) }
{
    if text.starts_with(b",") {
        let rest = after(text, b",\"events\":[")?;
        let (events, rest) = listed_first(alloc, rest)?;
        let rest = after(rest, b"]")?;
        Some((events, rest))
    } else {
        Some((List::new(alloc), text))
    }
}

/// The header and the events of the message that the text is, in the form in which etcd writes it. None also where memory was
/// wanting.
pub(crate) fn sent_events(alloc: Global, text: &[u8]) -> Option<(Header, List<Event>)>
    ensures text { IfSome result (λ parts. text.now ≡ spec.message_text parts.0 parts.1) }
    ensures header { IfSome result (λ parts. spec.HeaderSent parts.0) }
    ensures events { IfSome result (λ parts. AllByRecursion spec.EventSent parts.1) }
{
    let (header, rest) = header_first(text)?;
    let (events, rest) = events_if(alloc, rest)?;
    match after(rest, b"}}")? {
        [] => Some((header, events)),
        _ => None,
    }
}
