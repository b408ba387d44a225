//! The calls that a proxy makes most, with one record each.

use api_reply::{decode_reply, encode_item, encode_reply};
use api_request::{decode_request, encode_request};
use etcd_types::{
    Answer, Body, Bytes, Change, Event, Header, Kv, List, NoMemory, PutAsk, Reply, Request,
    WatchItem,
};
use std::alloc::Global;
use std::io;
use std::time::Instant;

/// Each call is made so often.
const ROUNDS: u32 = 200_000;

/// A cluster's header.
const HEADER: Header = Header {
    cluster: 14_841_639_068_965_178_418,
    member: 10_276_657_743_932_975_437,
    revision: 1_234_567,
    term: 7,
};

/// The body of a client's read of one key.
const READ: &[u8] = b"{\"key\":\"YmVuY2gva2V5\"}";

/// The body of a client's put of the record's key and value.
const PUT: &[u8] =
    b"{\"key\":\"YmVuY2gva2V5\",\"value\":\"YSB2YWx1ZSBvZiB0aGlydHktdHdvIGJ5dGVzIGxvbmc=\"}";

/// The body of a member's answer to a put.
const PUT_ANSWER: &[u8] =
    b"{\"header\":{\"cluster_id\":\"14841639068965178418\",\"member_id\":\"10276657743932975437\",\"revision\":\"1234567\",\"raft_term\":\"7\"}}";

/// A record with a value of 32 bytes.
fn record(alloc: Global) -> Result<Kv, NoMemory> {
    Ok(Kv {
        key: Bytes::from_slice(alloc, b"bench/key")?,
        value: Bytes::from_slice(alloc, b"a value of thirty-two bytes long")?,
        create: 1_234_001,
        modified: 1_234_567,
        version: 12,
        lease: 0,
    })
}

/// The answer to a range of one key.
fn range_answer(alloc: Global) -> Result<Answer, NoMemory> {
    let mut kvs = List::new(alloc);
    kvs.push(record(alloc)?)?;
    let body = Body::Range {
        count: 1,
        more: false,
        kvs,
    };
    Ok(Answer::Done(Reply {
        header: HEADER,
        body,
    }))
}

fn put_answer() -> Answer {
    Answer::Done(Reply {
        header: HEADER,
        body: Body::Put { prev: None },
    })
}

fn put_request(alloc: Global) -> Result<Request, NoMemory> {
    let Kv { key, value, .. } = record(alloc)?;
    Ok(Request::Put(PutAsk {
        key,
        value,
        lease: 0,
        prev_kv: false,
        ignore_lease: false,
    }))
}

fn message(alloc: Global) -> Result<WatchItem, NoMemory> {
    let mut events = List::new(alloc);
    let change = Change::Put(record(alloc)?);
    events.push(Event { change, prev: None })?;
    Ok(WatchItem::Events {
        header: HEADER,
        events,
    })
}

/// Tells the nanoseconds of a call, where each one found memory.
fn tell(rt: &HostRuntime, name: &str, start: &Instant, done: u32) -> io::Result<()> {
    let nanos = start.elapsed(rt)?.as_nanos() / ROUNDS as u128;
    println!(rt; "{name}: {nanos} ns a call, {done} calls")
}

fn tell_reply(rt: &HostRuntime, alloc: Global, name: &str, answer: &Answer) -> io::Result<()> {
    let start = Instant::now(rt)?;
    let done = (0..ROUNDS)
        .filter(|_| encode_reply(alloc, answer).is_ok())
        .count();
    tell(rt, name, &start, done as u32)
}

fn tell_item(rt: &HostRuntime, alloc: Global, item: &WatchItem) -> io::Result<()> {
    let start = Instant::now(rt)?;
    let done = (0..ROUNDS)
        .filter(|_| encode_item(alloc, item).is_ok())
        .count();
    tell(rt, "encode_item, one event", &start, done as u32)
}

fn tell_request(
    rt: &HostRuntime,
    alloc: Global,
    name: &str,
    path: &[u8],
    body: &[u8],
) -> io::Result<()> {
    let start = Instant::now(rt)?;
    let done = (0..ROUNDS)
        .filter(|_| decode_request(alloc, path, body).is_ok())
        .count();
    tell(rt, name, &start, done as u32)
}

/// A put as it is sent to a member, and the member's answer to it.
fn tell_put(rt: &HostRuntime, alloc: Global, put: &Request) -> io::Result<()> {
    let start = Instant::now(rt)?;
    let done = (0..ROUNDS)
        .filter(|_| encode_request(alloc, put).is_ok())
        .count();
    tell(rt, "encode_request, a put", &start, done as u32)?;
    let start = Instant::now(rt)?;
    let done = (0..ROUNDS)
        .filter(|_| decode_reply(alloc, put, 200, PUT_ANSWER).is_ok())
        .count();
    tell(rt, "decode_reply, of a put", &start, done as u32)
}

/// Tells the nanoseconds of `encode_reply`, `encode_item`, `decode_request`, `encode_request` and `decode_reply`.
pub fn tell_calls(rt: &HostRuntime, alloc: Global) -> io::Result<()> {
    let (Ok(range), Ok(item), Ok(put)) = (range_answer(alloc), message(alloc), put_request(alloc))
    else {
        return println!(rt; "no memory");
    };
    tell_reply(rt, alloc, "encode_reply, one record", &range)?;
    tell_reply(rt, alloc, "encode_reply, of a put", &put_answer())?;
    tell_item(rt, alloc, &item)?;
    tell_request(
        rt,
        alloc,
        "decode_request, a plain read",
        b"/v3/kv/range",
        READ,
    )?;
    tell_request(rt, alloc, "decode_request, a plain put", b"/v3/kv/put", PUT)?;
    tell_put(rt, alloc, &put)
}
