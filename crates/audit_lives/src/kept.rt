//! What is kept of the items, each in its place: what is looked up of them later, and no more.

ghost use Rattle.std.specs.Prelude.{◌≡◌, ◌∷◌, [], IfOk};
ghost use Rattle.std.specs.Option.{option_copied};
ghost use Rattle.audit_lives.specs.Given.{message_revision as revision_of_message, reply_revision as revision_of_reply};
ghost use Rattle.audit_lives.specs.Keeps.{answer_in as kept_answer, call_in as kept_call, keep_of, kept_by, kept_of, message_in as kept_message, opener_in as kept_opener, request_in as kept_request, sender_in as kept_sender};

use etcd_types::{Answer, Bytes, List, NoMemory, Request, WatchItem};
use script_text::Item;
use std::alloc::Global;

/// What is kept of an item. What watches take, what is replied, and what the store answered and pushed, isn't: but for revisions. A
/// request is in a list of its own, so that the rest takes the room of a few numbers.
#[derive(Drop)]
pub(crate) enum Kept {
    World {
        members: u64,
        namespace: Bytes,
    },
    Asked {
        proxy: u64,
        ticket: u64,
        request: List<Request>,
    },
    /// A call is sent: by this proxy, to a member, with a request.
    Sent {
        proxy: u64,
        call: u64,
        sent: List<(u64, Request)>,
    },
    Opened {
        proxy: u64,
        stream: u64,
    },
    /// The revision of the answer's header, or 0.
    Executed {
        call: u64,
        revision: u64,
    },
    /// The revision of the message's header.
    Pushed {
        stream: u64,
        revision: u64,
    },
    Other,
}

fn answer_revision(answer: &Answer) -> u64
    ensures { result ≡ revision_of_reply answer.now }
{
    match answer {
        Answer::Done(reply) => reply.header.revision,
        Answer::Refused(_) => 0,
    }
}

fn message_revision(message: &WatchItem) -> u64
    ensures { result ≡ revision_of_message message.now }
{
    match message {
        WatchItem::Created(header) => header.revision,
        WatchItem::Events { header, .. } => header.revision,
        WatchItem::Canceled { header, .. } => header.revision,
    }
}

/// A list of the one value, which is then allocated by itself.
fn alone<T: Drop>(alloc: Global, value: T) -> Result<List<T>, NoMemory>
    ensures { IfOk result (λ list. list ≡ value ∷ []) }
{
    let mut list = List::with_room(alloc, 1)?;
    list.push(value)?;
    Ok(list)
}

/// What is kept of the item.
pub(crate) fn keep(alloc: Global, item: Item) -> Result<Kept, NoMemory>
    ensures { IfOk result (λ kept. kept ≡ keep_of item) }
{
    match item {
        Item::World {
            members,
            namespace,
            ..
        } => Ok(Kept::World { members, namespace }),
        Item::Asked {
            proxy,
            ticket,
            request,
        } => Ok(Kept::Asked {
            proxy,
            ticket,
            request: alone(alloc, request)?,
        }),
        Item::Sent {
            proxy,
            call,
            member,
            request,
            ..
        } => Ok(Kept::Sent {
            proxy,
            call,
            sent: alone(alloc, (member, request))?,
        }),
        Item::Opened { proxy, stream, .. } => Ok(Kept::Opened { proxy, stream }),
        Item::Executed { call, answer } => Ok(Kept::Executed {
            call,
            revision: answer_revision(&answer),
        }),
        Item::Pushed { stream, item } => Ok(Kept::Pushed {
            stream,
            revision: message_revision(&item),
        }),
        _ => Ok(Kept::Other),
    }
}

/// What is kept at the place.
fn kept_at(kept: &[Kept], place: Option<u64>) -> Option<&Kept>
    ensures { option_copied result ≡ kept_of kept.now place }
{
    match place {
        Some(place) => kept.get(place as usize),
        None => None,
    }
}

fn request_in(proxy: u64, ticket: u64, kept: &Kept) -> Option<&Request>
    ensures { option_copied result ≡ kept_request proxy ticket kept.now }
{
    match kept {
        Kept::Asked {
            proxy: p,
            ticket: t,
            request,
        } => {
            if *p == proxy && *t == ticket {
                request.as_slice().get(0)
            } else {
                None
            }
        }
        _ => None,
    }
}

/// What is asked under the ticket by the item of this place.
pub(crate) fn request_by(
    proxy: u64,
    ticket: u64,
    kept: &[Kept],
    place: Option<u64>,
) -> Option<&Request>
    ensures { option_copied result ≡ kept_by (kept_request proxy ticket) kept.now place }
{
    match kept_at(kept, place) {
        Some(kept) => request_in(proxy, ticket, kept),
        None => None,
    }
}

fn sender_in(call: u64, kept: &Kept) -> Option<u64>
    ensures { result ≡ kept_sender call kept.now }
{
    match kept {
        Kept::Sent { proxy, call: c, .. } => { if *c == call { Some(*proxy) } else { None } }
        _ => None,
    }
}

/// The proxy that sends the call by the item of this place.
pub(crate) fn sender_by(call: u64, kept: &[Kept], place: Option<u64>) -> Option<u64>
    ensures { result ≡ kept_by (kept_sender call) kept.now place }
{
    match kept_at(kept, place) {
        Some(kept) => sender_in(call, kept),
        None => None,
    }
}

fn call_in(kept: &Kept) -> Option<&(u64, Request)>
    ensures { option_copied result ≡ kept_call kept.now }
{
    match kept {
        Kept::Sent { sent, .. } => sent.as_slice().get(0),
        _ => None,
    }
}

/// The member and the request of the call that is sent by the item of this place.
pub(crate) fn call_by(kept: &[Kept], place: Option<u64>) -> Option<&(u64, Request)>
    ensures { option_copied result ≡ kept_by kept_call kept.now place }
{
    match kept_at(kept, place) {
        Some(kept) => call_in(kept),
        None => None,
    }
}

fn opener_in(stream: u64, kept: &Kept) -> Option<u64>
    ensures { result ≡ kept_opener stream kept.now }
{
    match kept {
        Kept::Opened { proxy, stream: s } => { if *s == stream { Some(*proxy) } else { None } }
        _ => None,
    }
}

/// The proxy that opens the stream by the item of this place.
pub(crate) fn opener_by(stream: u64, kept: &[Kept], place: Option<u64>) -> Option<u64>
    ensures { result ≡ kept_by (kept_opener stream) kept.now place }
{
    match kept_at(kept, place) {
        Some(kept) => opener_in(stream, kept),
        None => None,
    }
}

fn answer_in(call: u64, kept: &Kept) -> Option<u64>
    ensures { result ≡ kept_answer call kept.now }
{
    match kept {
        Kept::Executed { call: c, revision } => { if *c == call { Some(*revision) } else { None } }
        _ => None,
    }
}

/// The revision of the answer to the call by the item of this place.
pub(crate) fn answer_by(call: u64, kept: &[Kept], place: Option<u64>) -> Option<u64>
    ensures { result ≡ kept_by (kept_answer call) kept.now place }
{
    match kept_at(kept, place) {
        Some(kept) => answer_in(call, kept),
        None => None,
    }
}

fn message_in(stream: u64, kept: &Kept) -> Option<u64>
    ensures { result ≡ kept_message stream kept.now }
{
    match kept {
        Kept::Pushed {
            stream: s,
            revision,
        } => { if *s == stream { Some(*revision) } else { None } }
        _ => None,
    }
}

/// The revision of the stream's message by the item of this place.
pub(crate) fn message_by(stream: u64, kept: &[Kept], place: Option<u64>) -> Option<u64>
    ensures { result ≡ kept_by (kept_message stream) kept.now place }
{
    match kept_at(kept, place) {
        Some(kept) => message_in(stream, kept),
        None => None,
    }
}
