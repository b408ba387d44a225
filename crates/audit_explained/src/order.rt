// Items that aren't in order.

use crate::said::{Said, tell};
use crate::streams::{
    closed_said, delivered_said, executed_said, member_said, opened_said, pushed_said, sent_said,
    settled_said,
};
use audit_past::{Kind, Mark, Past, Trace, last, last_in_life, mark_at};
use etcd_types::NoMemory;
use script_text::Item;
use std::alloc::Global;

/// Whether an item of this kind is told of a proxy that was started before.
fn is_of_proxy(kind: Kind) -> bool {
    match kind {
        Kind::World | Kind::Started | Kind::Executed | Kind::Answered | Kind::Lost => false,
        Kind::Pushed | Kind::Delivered | Kind::Cut | Kind::Expired | Kind::Applied => false,
        _ => true,
    }
}

/// Whether the item names a proxy that wasn't started.
fn is_unstarted(items: &[Item], mark: Mark) -> bool {
    is_of_proxy(mark.kind) && last(Trace::Begins(mark.proxy), items).is_none()
}

/// A first item that makes no world.
fn first_said(alloc: Global, mark: Mark) -> Result<Said, NoMemory> {
    match mark.kind {
        Kind::World => tell(alloc, "the world would have # members", &[mark.value], &[]),
        _ => tell(alloc, "no world stands before the item", &[], &[]),
    }
}

fn started_said(alloc: Global, items: &[Item], proxy: u64) -> Result<Said, NoMemory> {
    tell(
        alloc,
        "proxy # was started already",
        &[proxy],
        &[last(Trace::Begins(proxy), items)],
    )
}

fn clock_said(alloc: Global, items: &[Item], proxy: u64, millis: u64) -> Result<Said, NoMemory> {
    let latest = last(Trace::Clock(proxy), items);
    match mark_at(items, latest) {
        Some(mark) => tell(
            alloc,
            "the clock of proxy # read # ms, and now # ms",
            &[proxy, mark.value, millis],
            &[latest],
        ),
        None => tell(alloc, "the clock reads # ms", &[millis], &[]),
    }
}

fn asked_said(
    alloc: Global,
    items: &[Item],
    trace: Trace,
    proxy: u64,
    ticket: u64,
) -> Result<Said, NoMemory> {
    tell(
        alloc,
        "proxy # has ticket # in this life already",
        &[proxy, ticket],
        &[last_in_life(trace, proxy, items)],
    )
}

/// A ticket that the proxy doesn't know in this life, or not as a watch.
fn ticket_said(alloc: Global, items: &[Item], proxy: u64, ticket: u64) -> Result<Said, NoMemory> {
    let given = last_in_life(Trace::Gives(proxy, ticket), proxy, items);
    let begun = last(Trace::Begins(proxy), items);
    match given {
        Some(_) => tell(
            alloc,
            "ticket # of proxy # wasn't asked as a watch",
            &[ticket, proxy],
            &[given],
        ),
        None => tell(
            alloc,
            "proxy # has no ticket # in this life",
            &[proxy, ticket],
            &[begun],
        ),
    }
}

fn reply_said(alloc: Global, items: &[Item], proxy: u64, ticket: u64) -> Result<Said, NoMemory> {
    let replied = last_in_life(Trace::Replies(proxy, ticket), proxy, items);
    match replied {
        Some(_) => tell(
            alloc,
            "ticket # of proxy # was replied already",
            &[ticket, proxy],
            &[
                last_in_life(Trace::Gives(proxy, ticket), proxy, items),
                replied,
            ],
        ),
        None => ticket_said(alloc, items, proxy, ticket),
    }
}

fn expired_said(alloc: Global, items: &[Item], lease: u64) -> Result<Said, NoMemory> {
    tell(
        alloc,
        "the store has no lease #",
        &[lease],
        &[
            last(Trace::Grants(lease), items),
            last(Trace::Expires(lease), items),
        ],
    )
}

/// A revision that the member can't apply.
fn revision_said(
    alloc: Global,
    items: &[Item],
    past: &mut Past,
    member: u64,
    revision: u64,
) -> Result<Said, NoMemory> {
    past.read(items)?;
    let newest = past.newest();
    if newest < revision {
        let places = [past.last_made()];
        tell(
            alloc,
            "the store was at revision #, which is below #",
            &[newest, revision],
            &places,
        )
    } else {
        let places = [last(Trace::Applies(member), items)];
        tell(
            alloc,
            "member # has applied a revision above #",
            &[member, revision],
            &places,
        )
    }
}

fn applied_said(
    alloc: Global,
    items: &[Item],
    past: &mut Past,
    member: u64,
    revision: u64,
) -> Result<Said, NoMemory> {
    match member_said(alloc, items, member)? {
        Some(unknown) => Ok(unknown),
        None => revision_said(alloc, items, past, member, revision),
    }
}

/// Calls and streams.
fn use_said(alloc: Global, items: &[Item], past: &mut Past, mark: Mark) -> Result<Said, NoMemory> {
    let Mark {
        proxy,
        number,
        value,
        ..
    } = mark;
    match mark.kind {
        Kind::Sent => sent_said(alloc, items, number, value),
        Kind::Opened => opened_said(alloc, items, number, value),
        Kind::Closed => closed_said(alloc, items, proxy, number),
        Kind::Executed => executed_said(alloc, items, number),
        Kind::Answered | Kind::Lost => settled_said(alloc, items, number),
        Kind::Pushed | Kind::Cut => pushed_said(alloc, items, number),
        Kind::Delivered => delivered_said(alloc, items, number),
        Kind::Expired => expired_said(alloc, items, number),
        Kind::Applied => applied_said(alloc, items, past, number, value),
        _ => tell(alloc, "the item isn't in order", &[], &[]),
    }
}

/// Why the item isn't in order.
pub(crate) fn order_said(
    alloc: Global,
    items: &[Item],
    past: &mut Past,
    mark: Mark,
) -> Result<Said, NoMemory> {
    if items.is_empty() {
        return first_said(alloc, mark);
    }
    if is_unstarted(items, mark) {
        return tell(alloc, "proxy # wasn't started", &[mark.proxy], &[]);
    }
    item_said(alloc, items, past, mark)
}

/// Why the item isn't in order, where it isn't the first one and its proxy was started.
fn item_said(alloc: Global, items: &[Item], past: &mut Past, mark: Mark) -> Result<Said, NoMemory> {
    let Mark {
        proxy,
        number,
        value,
        ..
    } = mark;
    match mark.kind {
        Kind::World => tell(alloc, "the world is made already", &[], &[Some(0)]),
        Kind::Started => started_said(alloc, items, proxy),
        Kind::Clock => clock_said(alloc, items, proxy, value),
        Kind::Asked => asked_said(alloc, items, Trace::Asks(proxy, number), proxy, number),
        Kind::Posted => asked_said(alloc, items, Trace::Gives(proxy, number), proxy, number),
        Kind::Taken | Kind::Pending | Kind::Left | Kind::Body => {
            ticket_said(alloc, items, proxy, number)
        }
        Kind::Reply => reply_said(alloc, items, proxy, number),
        _ => use_said(alloc, items, past, mark),
    }
}
