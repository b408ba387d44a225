// Calls and streams that can't be used so.

use crate::said::{Said, tell};
use audit_past::{Kind, Trace, last, mark_at, proxy_at};
use etcd_types::NoMemory;
use script_text::Item;
use std::alloc::Global;

fn is_before(place: Option<usize>, other: Option<usize>) -> bool {
    match (place, other) {
        (Some(place), Some(other)) => place < other,
        _ => false,
    }
}

/// Why a call can't be used in its proxy's life: it wasn't sent in it.
pub(crate) fn call_gone(
    alloc: Global,
    items: &[Item],
    call: u64,
) -> Result<Option<Said>, NoMemory> {
    let sent = last(Trace::Sends(call), items);
    let Some(proxy) = proxy_at(items, sent) else {
        return Ok(Some(tell(alloc, "call # wasn't sent", &[call], &[])?));
    };
    let begun = last(Trace::Begins(proxy), items);
    if is_before(sent, begun) {
        return Ok(Some(tell(
            alloc,
            "call # was sent in an earlier life of proxy #",
            &[call, proxy],
            &[sent, begun],
        )?));
    }
    Ok(None)
}

/// Why a call can't be settled.
pub(crate) fn settled_said(alloc: Global, items: &[Item], call: u64) -> Result<Said, NoMemory> {
    if let Some(gone) = call_gone(alloc, items, call)? {
        return Ok(gone);
    }
    let sent = last(Trace::Sends(call), items);
    let settled = last(Trace::Settles(call), items);
    if settled.is_some() {
        return tell(
            alloc,
            "call # was answered or lost already",
            &[call],
            &[sent, settled],
        );
    }
    tell(alloc, "call # wasn't executed", &[call], &[sent])
}

/// Why a call can't be executed.
pub(crate) fn executed_said(alloc: Global, items: &[Item], call: u64) -> Result<Said, NoMemory> {
    let executed = last(Trace::Executes(call), items);
    if executed.is_none() {
        return tell(alloc, "call # wasn't sent", &[call], &[]);
    }
    tell(
        alloc,
        "call # was executed already",
        &[call],
        &[last(Trace::Sends(call), items), executed],
    )
}

/// Why a stream can't be used in its proxy's life: it wasn't opened in it, or is over.
fn stream_gone(alloc: Global, items: &[Item], stream: u64) -> Result<Option<Said>, NoMemory> {
    let opened = last(Trace::Opens(stream), items);
    let Some(proxy) = proxy_at(items, opened) else {
        return Ok(Some(tell(alloc, "stream # wasn't opened", &[stream], &[])?));
    };
    let begun = last(Trace::Begins(proxy), items);
    if is_before(opened, begun) {
        return Ok(Some(tell(
            alloc,
            "stream # was opened in an earlier life of proxy #",
            &[stream, proxy],
            &[opened, begun],
        )?));
    }
    let ended = last(Trace::Ends(stream), items);
    if ended.is_some() {
        return Ok(Some(tell(
            alloc,
            "stream # was cut or closed already",
            &[stream],
            &[opened, ended],
        )?));
    }
    Ok(None)
}

/// Why nothing can be pushed into a stream, nor can it be cut.
pub(crate) fn pushed_said(alloc: Global, items: &[Item], stream: u64) -> Result<Said, NoMemory> {
    if let Some(gone) = stream_gone(alloc, items, stream)? {
        return Ok(gone);
    }
    tell(
        alloc,
        "stream # was cancelled",
        &[stream],
        &[
            last(Trace::Opens(stream), items),
            last(Trace::Cancels(stream), items),
        ],
    )
}

/// Why no message of a stream can be delivered.
pub(crate) fn delivered_said(alloc: Global, items: &[Item], stream: u64) -> Result<Said, NoMemory> {
    if let Some(gone) = stream_gone(alloc, items, stream)? {
        return Ok(gone);
    }
    tell(
        alloc,
        "no pushed message of stream # waits",
        &[stream],
        &[
            last(Trace::Opens(stream), items),
            last(Trace::Pushes(stream), items),
        ],
    )
}

/// Why a proxy can't close a stream.
pub(crate) fn closed_said(
    alloc: Global,
    items: &[Item],
    proxy: u64,
    stream: u64,
) -> Result<Said, NoMemory> {
    let opened = last(Trace::Opens(stream), items);
    let opener = proxy_at(items, opened).unwrap_or(proxy);
    if opener != proxy {
        return tell(
            alloc,
            "stream # was opened by proxy #",
            &[stream, opener],
            &[opened],
        );
    }
    match stream_gone(alloc, items, stream)? {
        Some(gone) => Ok(gone),
        None => tell(alloc, "stream # is closed", &[stream], &[opened]),
    }
}

/// The number behind that of the last call or stream.
fn next_number(items: &[Item], latest: Option<usize>) -> u64 {
    match mark_at(items, latest) {
        Some(mark) => mark.number.saturating_add(1),
        None => 1,
    }
}

fn members_of(items: &[Item]) -> u64 {
    match mark_at(items, Some(0)) {
        Some(mark) => match mark.kind {
            Kind::World => mark.value,
            _ => 0,
        },
        None => 0,
    }
}

/// A member that the world hasn't, where it hasn't.
pub(crate) fn member_said(
    alloc: Global,
    items: &[Item],
    member: u64,
) -> Result<Option<Said>, NoMemory> {
    let members = members_of(items);
    if 1 <= member && member <= members {
        return Ok(None);
    }
    Ok(Some(tell(
        alloc,
        "the world has no member #; its members are numbered up to #",
        &[member, members],
        &[Some(0)],
    )?))
}

/// Why a call can't be sent.
pub(crate) fn sent_said(
    alloc: Global,
    items: &[Item],
    call: u64,
    member: u64,
) -> Result<Said, NoMemory> {
    let latest = last(Trace::Calls, items);
    let next = next_number(items, latest);
    if call != next {
        return tell(
            alloc,
            "the next call is number #, and this one is #",
            &[next, call],
            &[latest],
        );
    }
    match member_said(alloc, items, member)? {
        Some(unknown) => Ok(unknown),
        None => tell(alloc, "call # opens a watch", &[call], &[]),
    }
}

/// Why a stream can't be opened.
pub(crate) fn opened_said(
    alloc: Global,
    items: &[Item],
    stream: u64,
    member: u64,
) -> Result<Said, NoMemory> {
    let latest = last(Trace::Streams, items);
    let next = next_number(items, latest);
    if stream != next {
        return tell(
            alloc,
            "the next stream is number #, and this one is #",
            &[next, stream],
            &[latest],
        );
    }
    match member_said(alloc, items, member)? {
        Some(unknown) => Ok(unknown),
        None => tell(alloc, "the request of stream # is no watch", &[stream], &[]),
    }
}
