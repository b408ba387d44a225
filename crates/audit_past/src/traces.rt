// Where the items before a refused one tell something of it.

use crate::marks::{Kind, Mark, mark_of};
use etcd_types::Request;
use script_text::Item;

/// What an item is looked for by. Of two numbers the first is the proxy's, and the second a ticket's.
#[derive(Clone, Copy)]
pub enum Trace {
    /// A life of the proxy begins.
    Begins(u64),
    Clock(u64),
    /// A ticket is asked or posted.
    Gives(u64, u64),
    Asks(u64, u64),
    Replies(u64, u64),
    Takes(u64, u64),
    /// The call of this number is sent; some call is.
    Sends(u64),
    Calls,
    Executes(u64),
    /// The call is answered or lost.
    Settles(u64),
    /// The stream of this number is opened; some stream is.
    Opens(u64),
    Streams,
    Pushes(u64),
    Cancels(u64),
    /// The stream is cut or closed.
    Ends(u64),
    /// The lease of this number is granted, kept alive, or expires.
    Grants(u64),
    Keeps(u64),
    Expires(u64),
    /// The member of this number applies a revision.
    Applies(u64),
}

/// An item of this kind or role, and of these numbers where they are said.
#[derive(Clone, Copy)]
struct Sought {
    kind: Kind,
    proxy: Option<u64>,
    number: Option<u64>,
    lease: Option<u64>,
}

fn any(kind: Kind) -> Sought {
    Sought {
        kind,
        proxy: None,
        number: None,
        lease: None,
    }
}

fn of_proxy(kind: Kind, proxy: u64) -> Sought {
    Sought {
        kind,
        proxy: Some(proxy),
        number: None,
        lease: None,
    }
}

fn of_ticket(kind: Kind, proxy: u64, ticket: u64) -> Sought {
    Sought {
        kind,
        proxy: Some(proxy),
        number: Some(ticket),
        lease: None,
    }
}

fn of_number(kind: Kind, number: u64) -> Sought {
    Sought {
        kind,
        proxy: None,
        number: Some(number),
        lease: None,
    }
}

fn of_lease(kind: Kind, lease: u64) -> Sought {
    Sought {
        kind,
        proxy: None,
        number: None,
        lease: Some(lease),
    }
}

fn sought_by(trace: Trace) -> Sought {
    match trace {
        Trace::Begins(proxy) => of_proxy(Kind::Begins, proxy),
        Trace::Clock(proxy) => of_proxy(Kind::Clock, proxy),
        Trace::Gives(proxy, ticket) => of_ticket(Kind::Gives, proxy, ticket),
        Trace::Asks(proxy, ticket) => of_ticket(Kind::Asked, proxy, ticket),
        Trace::Replies(proxy, ticket) => of_ticket(Kind::Reply, proxy, ticket),
        Trace::Takes(proxy, ticket) => of_ticket(Kind::Taken, proxy, ticket),
        Trace::Sends(call) => of_number(Kind::Sent, call),
        Trace::Calls => any(Kind::Sent),
        Trace::Executes(call) => of_number(Kind::Executed, call),
        Trace::Settles(call) => of_number(Kind::Settles, call),
        Trace::Opens(stream) => of_number(Kind::Opened, stream),
        Trace::Streams => any(Kind::Opened),
        Trace::Pushes(stream) => of_number(Kind::Pushed, stream),
        Trace::Cancels(stream) => of_number(Kind::Cancels, stream),
        Trace::Ends(stream) => of_number(Kind::Ends, stream),
        Trace::Grants(lease) => of_lease(Kind::Grants, lease),
        Trace::Keeps(lease) => of_lease(Kind::Keeps, lease),
        Trace::Expires(lease) => of_number(Kind::Expired, lease),
        Trace::Applies(member) => of_number(Kind::Applied, member),
    }
}

fn fits(wanted: Option<u64>, number: u64) -> bool {
    match wanted {
        Some(wanted) => wanted == number,
        None => true,
    }
}

fn is_told(sought: Sought, mark: Mark) -> bool {
    (mark.kind == sought.kind || mark.role == sought.kind)
        && fits(sought.proxy, mark.proxy)
        && fits(sought.number, mark.number)
        && fits(sought.lease, mark.lease)
}

/// The place, from 0, of the last item that tells this.
pub fn last(trace: Trace, items: &[Item]) -> Option<usize> {
    let sought = sought_by(trace);
    let mut found = None;
    for (place, item) in items.iter().enumerate() {
        if is_told(sought, mark_of(item)) {
            found = Some(place);
        }
    }
    found
}

/// The same, in the life that the proxy has now.
pub fn last_in_life(trace: Trace, proxy: u64, items: &[Item]) -> Option<usize> {
    let place = last(trace, items)?;
    let start = last(Trace::Begins(proxy), items)?;
    if place < start { None } else { Some(place) }
}

/// The place of the first item that tells this in the life that the proxy has now.
pub fn first_in_life(trace: Trace, proxy: u64, items: &[Item]) -> Option<usize> {
    let sought = sought_by(trace);
    let start = last(Trace::Begins(proxy), items)?;
    for (place, item) in items.iter().enumerate() {
        if start <= place && is_told(sought, mark_of(item)) {
            return Some(place);
        }
    }
    None
}

/// The place of the first pushed message that ends its watch with this compaction revision.
pub fn cancelled_at(items: &[Item], compaction: u64) -> Option<usize> {
    for (place, item) in items.iter().enumerate() {
        let mark = mark_of(item);
        if mark.role == Kind::Cancels && mark.value == compaction {
            return Some(place);
        }
    }
    None
}

/// The item at the place, where there is one.
pub fn item_at(items: &[Item], place: Option<usize>) -> Option<&Item> {
    match place {
        Some(place) => items.get(place),
        None => None,
    }
}

/// What the item at the place is of, where there is one.
pub fn mark_at(items: &[Item], place: Option<usize>) -> Option<Mark> {
    match item_at(items, place) {
        Some(item) => Some(mark_of(item)),
        None => None,
    }
}

/// What was asked at the place.
pub fn asked_at(items: &[Item], place: Option<usize>) -> Option<&Request> {
    match item_at(items, place) {
        Some(Item::Asked { request, .. }) => Some(request),
        _ => None,
    }
}

/// The proxy that sends a call or opens a stream at the place.
pub fn proxy_at(items: &[Item], place: Option<usize>) -> Option<u64> {
    match mark_at(items, place) {
        Some(mark) => Some(mark.proxy),
        None => None,
    }
}
