// Replies to reads that no call named, and that aren't what the store holds.

use crate::said::{Said, filled, spelled, tell, tell_found};
use audit_past::{Newest, Past, Trace, asked_at, last_in_life, newest_given};
use equal_values::same_body;
use etcd_types::{Answer, Body, Bytes, Header, NoMemory, Reply, Request};
use namespace_keys::{KeyFault, Namespace};
use script_text::Item;
use snapshot_reads::is_plain;
use std::alloc::Global;

const NOT_PLAIN: &str =
    "the read was answered without a call, and isn't a plain one: of one key, at the newest revision, linearizable, with its whole record";

/// A read: its proxy and ticket, and where it was asked.
#[derive(Clone, Copy)]
struct Read {
    proxy: u64,
    ticket: u64,
    asked: Option<usize>,
}

/// The namespace of the world.
pub(crate) fn namespace_of(alloc: Global, items: &[Item]) -> Result<Namespace, NoMemory> {
    match items.first() {
        Some(Item::World { namespace, .. }) => Ok(Namespace::new(namespace.copy(alloc)?)),
        _ => Ok(Namespace::new(Bytes::new(alloc))),
    }
}

/// The reply as the client is told it. Nothing where a key of it isn't in the namespace.
fn bare_reply(
    alloc: Global,
    namespace: &Namespace,
    stored: Reply,
) -> Result<Option<Reply>, NoMemory> {
    match namespace.unwrap_reply(alloc, stored) {
        Ok(bare) => Ok(Some(bare)),
        Err(KeyFault::NoMemory) => Err(NoMemory),
        Err(_) => Ok(None),
    }
}

/// What the store answers to the request of a client, by the store's keys.
fn stored_answer(
    alloc: Global,
    namespace: &Namespace,
    past: &mut Past,
    request: &Request,
) -> Result<Answer, NoMemory> {
    let wrapped = namespace.wrap_request(alloc, request)?;
    past.execute(1, &wrapped)
}

/// What the store answers to the request of a client, told by the client's keys. Nothing where it refuses it.
fn due_reply(
    alloc: Global,
    namespace: &Namespace,
    past: &mut Past,
    request: &Request,
) -> Result<Option<Reply>, NoMemory> {
    match stored_answer(alloc, namespace, past, request)? {
        Answer::Done(stored) => bare_reply(alloc, namespace, stored),
        Answer::Refused(_) => Ok(None),
    }
}

/// What the world's store answers to the request of a client, told by the client's keys. Nothing where it refuses it.
fn held_reply(
    alloc: Global,
    items: &[Item],
    past: &mut Past,
    request: &Request,
) -> Result<Option<Reply>, NoMemory> {
    let namespace = namespace_of(alloc, items)?;
    due_reply(alloc, &namespace, past, request)
}

/// The revision of the first record that is shown.
fn shown_revision(body: &Body) -> Option<u64> {
    match body {
        Body::Range { kvs, .. } => match kvs.as_slice().first() {
            Some(kv) => Some(kv.modified),
            None => None,
        },
        _ => None,
    }
}

/// The store held a record of this revision.
fn held_record(alloc: Global, held: u64, told: &Body) -> Result<Vec<u8>, NoMemory> {
    let Some(shown) = shown_revision(told) else {
        return filled(
            alloc,
            "the store then held revision #, the reply shows no record",
            &[held],
        );
    };
    if held == shown {
        return filled(
            alloc,
            "the store then held revision #, the reply shows another record of it",
            &[held],
        );
    }
    filled(
        alloc,
        "the store then held revision #, the reply shows #",
        &[held, shown],
    )
}

/// The store held no record.
fn held_none(alloc: Global, told: &Body) -> Result<Vec<u8>, NoMemory> {
    match shown_revision(told) {
        Some(shown) => filled(
            alloc,
            "the store then held no record, the reply shows revision #",
            &[shown],
        ),
        None => filled(
            alloc,
            "the store then held no record, the reply shows none in another way",
            &[],
        ),
    }
}

/// What the store held, and what is shown.
fn held_and_shown(alloc: Global, told: &Body, due: &Body) -> Result<Vec<u8>, NoMemory> {
    match shown_revision(due) {
        Some(held) => held_record(alloc, held, told),
        None => held_none(alloc, told),
    }
}

/// The read of this key was answered.
fn key_read(alloc: Global, key: &Bytes) -> Result<Vec<u8>, NoMemory> {
    let mut text = filled(alloc, "the read of key `", &[])?;
    text.extend_from_slice(spelled(alloc, key)?.as_bytes())?;
    text.extend_from_slice(b"` was answered without a call; ")?;
    Ok(text)
}

/// What was answered without a call.
fn what_read(alloc: Global, request: &Request) -> Result<Vec<u8>, NoMemory> {
    match request {
        Request::Range(ask) => key_read(alloc, &ask.range.key),
        _ => filled(alloc, "the transaction was answered without a call; ", &[]),
    }
}

/// What was answered without a call, and what is wrong with that.
fn read_said(
    alloc: Global,
    request: &Request,
    wrong: &[u8],
    places: &[Option<usize>],
) -> Result<Said, NoMemory> {
    let mut found = what_read(alloc, request)?;
    found.extend_from_slice(wrong)?;
    tell_found(alloc, found, places)
}

/// In what the body differs from what the store holds.
fn body_difference(
    alloc: Global,
    request: &Request,
    told: &Body,
    due: &Body,
) -> Result<Vec<u8>, NoMemory> {
    match request {
        Request::Range(_) => held_and_shown(alloc, told, due),
        _ => filled(alloc, "the store answers otherwise to it", &[]),
    }
}

/// Where the revision was made that is shown first.
fn place_of(past: &Past, body: &Body) -> Option<usize> {
    past.made_at(shown_revision(body)?)
}

/// A reply whose body isn't what the store holds.
fn body_said(
    alloc: Global,
    past: &Past,
    asked: Option<usize>,
    request: &Request,
    told: &Body,
    due: &Body,
) -> Result<Said, NoMemory> {
    let wrong = body_difference(alloc, request, told, due)?;
    let places = [asked, place_of(past, due), place_of(past, told)];
    read_said(alloc, request, wrong.as_slice(), &places)
}

/// A reply whose header shows a revision that the store had not made.
fn new_header_said(
    alloc: Global,
    past: &Past,
    asked: Option<usize>,
    request: &Request,
    shown: u64,
) -> Result<Said, NoMemory> {
    let numbers = [past.newest(), shown];
    let wrong = filled(
        alloc,
        "the store was at revision #, the header shows #",
        &numbers,
    )?;
    read_said(alloc, request, wrong.as_slice(), &[asked, past.last_made()])
}

/// What the proxy was given before a reply whose header is older.
fn given_before(
    alloc: Global,
    proxy: u64,
    given: Option<Newest>,
    shown: u64,
) -> Result<Vec<u8>, NoMemory> {
    match given {
        Some(Newest { revision, .. }) => filled(
            alloc,
            "proxy # was given revision # before in this life, the header shows #",
            &[proxy, revision, shown],
        ),
        None => filled(alloc, "the header shows revision #", &[shown]),
    }
}

fn given_place(given: Option<Newest>) -> Option<usize> {
    match given {
        Some(Newest { place, .. }) => Some(place),
        None => None,
    }
}

/// A reply whose header is older than one that the proxy was given.
fn old_header_said(
    alloc: Global,
    items: &[Item],
    asked: Option<usize>,
    proxy: u64,
    request: &Request,
    shown: u64,
) -> Result<Said, NoMemory> {
    let given = newest_given(alloc, items, proxy)?;
    let wrong = given_before(alloc, proxy, given, shown)?;
    read_said(
        alloc,
        request,
        wrong.as_slice(),
        &[asked, given_place(given)],
    )
}

/// A reply that isn't the one that is due.
fn difference_said(
    alloc: Global,
    items: &[Item],
    past: &Past,
    read: Read,
    request: &Request,
    told: &Reply,
    due: &Reply,
) -> Result<Said, NoMemory> {
    let Read { proxy, asked, .. } = read;
    if !same_body(&told.body, &due.body) {
        return body_said(alloc, past, asked, request, &told.body, &due.body);
    }
    let shown = told.header.revision;
    if past.newest() < shown {
        return new_header_said(alloc, past, asked, request, shown);
    }
    old_header_said(alloc, items, asked, proxy, request, shown)
}

/// The header of the reply that would be true: told as it was, at the store's newest revision.
fn expected_header(told: &Header, due: &Header) -> Header {
    Header {
        cluster: told.cluster,
        member: told.member,
        revision: due.revision,
        term: told.term,
    }
}

/// Whether the request is a read of records, and not a plain one.
fn is_other_range(request: &Request) -> bool {
    match request {
        Request::Range(ask) => !is_plain(ask),
        _ => false,
    }
}

/// A reply in place of the one that is due.
fn due_said(
    alloc: Global,
    items: &[Item],
    past: &Past,
    read: Read,
    request: &Request,
    told: &Reply,
    due: &Reply,
) -> Result<Said, NoMemory> {
    let header = expected_header(&told.header, &due.header);
    let mut all = difference_said(alloc, items, past, read, request, told, due)?;
    all.expect_reply(
        alloc,
        "reply",
        &[read.proxy, read.ticket],
        &header,
        &due.body,
    )?;
    Ok(all)
}

/// A reply to a request that the store refuses.
fn undue_said(alloc: Global, asked: Option<usize>, request: &Request) -> Result<Said, NoMemory> {
    let wrong = filled(alloc, "the store refuses it", &[])?;
    read_said(alloc, request, wrong.as_slice(), &[asked])
}

/// A reply to the request that was asked, a plain read or a transaction.
fn plain_said(
    alloc: Global,
    items: &[Item],
    past: &mut Past,
    read: Read,
    request: &Request,
    told: &Reply,
) -> Result<Said, NoMemory> {
    past.read(items)?;
    match held_reply(alloc, items, past, request)? {
        None => undue_said(alloc, read.asked, request),
        Some(due) => due_said(alloc, items, past, read, request, told, &due),
    }
}

/// A reply to the request that was asked.
fn reply_said(
    alloc: Global,
    items: &[Item],
    past: &mut Past,
    read: Read,
    request: &Request,
    told: &Reply,
) -> Result<Said, NoMemory> {
    if is_other_range(request) {
        tell(alloc, NOT_PLAIN, &[], &[read.asked])
    } else {
        plain_said(alloc, items, past, read, request, told)
    }
}

/// A reply that no call named, and that isn't true.
pub(crate) fn unsent_said(
    alloc: Global,
    items: &[Item],
    past: &mut Past,
    proxy: u64,
    ticket: u64,
    told: &Reply,
) -> Result<Said, NoMemory> {
    let asked = last_in_life(Trace::Asks(proxy, ticket), proxy, items);
    match asked_at(items, asked) {
        None => tell(alloc, "ticket # wasn't asked", &[ticket], &[]),
        Some(request) => {
            let read = Read {
                proxy,
                ticket,
                asked,
            };
            reply_said(alloc, items, past, read, request, told)
        }
    }
}
