// What each item is of, in numbers.

use etcd_types::{Answer, Body, Reply, WatchItem};
use script_text::Item;

/// What an item tells. Behind the kinds of items are what several kinds of them are, and what some of a kind do.
#[derive(Clone, Copy, PartialEq, Eq)]
pub enum Kind {
    World,
    Started,
    Restarted,
    Clock,
    Asked,
    Posted,
    Ticked,
    Sent,
    Opened,
    Closed,
    Executed,
    Answered,
    Lost,
    Pushed,
    Delivered,
    Cut,
    Taken,
    Pending,
    Left,
    Expired,
    Applied,
    Reply,
    Body,
    /// A life of a proxy begins.
    Begins,
    /// A ticket is asked or posted.
    Gives,
    /// A call is answered or lost.
    Settles,
    /// A stream is cut or closed.
    Ends,
    /// A pushed message ends its watch.
    Cancels,
    /// A call is executed that grants a lease, or keeps one alive.
    Grants,
    Keeps,
    /// Nothing more than its kind says.
    Plain,
}

/// What an item is of. A number that it hasn't is 0.
#[derive(Clone, Copy)]
pub struct Mark {
    pub kind: Kind,
    pub role: Kind,
    pub proxy: u64,
    /// That of the ticket, call, stream, lease or member.
    pub number: u64,
    /// The members of a world, the member of a call or a stream, the time of a clock, the revision that is applied, or the
    /// compaction revision of a message that ends its watch.
    pub value: u64,
    /// The lease that is granted or kept alive.
    pub lease: u64,
    /// The revision of the header of an answer or a message.
    pub revision: u64,
}

fn marked(kind: Kind, role: Kind, proxy: u64, number: u64, value: u64) -> Mark {
    Mark {
        kind,
        role,
        proxy,
        number,
        value,
        lease: 0,
        revision: 0,
    }
}

/// An item of a proxy's ticket, or of no number.
fn of_ticket(kind: Kind, proxy: u64, ticket: u64) -> Mark {
    marked(kind, Kind::Plain, proxy, ticket, 0)
}

/// An item of a call, stream or lease.
fn of_number(kind: Kind, role: Kind, number: u64) -> Mark {
    marked(kind, role, 0, number, 0)
}

/// The role of a call that is done, and its lease.
fn done_role(body: &Body) -> (Kind, u64) {
    match body {
        Body::Grant { lease, .. } => (Kind::Grants, *lease),
        Body::KeepAlive { lease, ttl } => {
            (if *ttl != 0 { Kind::Keeps } else { Kind::Plain }, *lease)
        }
        _ => (Kind::Plain, 0),
    }
}

fn done_mark(call: u64, reply: &Reply) -> Mark {
    let (role, lease) = done_role(&reply.body);
    Mark {
        kind: Kind::Executed,
        role,
        proxy: 0,
        number: call,
        value: 0,
        lease,
        revision: reply.header.revision,
    }
}

fn executed_mark(call: u64, answer: &Answer) -> Mark {
    match answer {
        Answer::Done(reply) => done_mark(call, reply),
        Answer::Refused(_) => of_number(Kind::Executed, Kind::Plain, call),
    }
}

fn message_revision(message: &WatchItem) -> u64 {
    match message {
        WatchItem::Created(header) => header.revision,
        WatchItem::Events { header, .. } => header.revision,
        WatchItem::Canceled { header, .. } => header.revision,
    }
}

/// Whether the message ends its watch.
pub fn is_cancellation(message: &WatchItem) -> bool {
    match message {
        WatchItem::Canceled { .. } => true,
        _ => false,
    }
}

/// The compaction revision of a message that ends its watch.
fn compaction_of(message: &WatchItem) -> u64 {
    match message {
        WatchItem::Canceled { compact, .. } => *compact,
        _ => 0,
    }
}

fn pushed_mark(stream: u64, message: &WatchItem) -> Mark {
    Mark {
        kind: Kind::Pushed,
        role: if is_cancellation(message) {
            Kind::Cancels
        } else {
            Kind::Plain
        },
        proxy: 0,
        number: stream,
        value: compaction_of(message),
        lease: 0,
        revision: message_revision(message),
    }
}

/// What the item is of.
pub fn mark_of(item: &Item) -> Mark {
    match item {
        Item::World { members, .. } => marked(Kind::World, Kind::Plain, 0, 0, *members),
        Item::Started { proxy } => marked(Kind::Started, Kind::Begins, *proxy, 0, 0),
        Item::Restarted { proxy } => marked(Kind::Restarted, Kind::Begins, *proxy, 0, 0),
        Item::Clock { proxy, millis } => marked(Kind::Clock, Kind::Plain, *proxy, 0, *millis),
        Item::Asked { proxy, ticket, .. } => marked(Kind::Asked, Kind::Gives, *proxy, *ticket, 0),
        Item::Posted { proxy, ticket, .. } => marked(Kind::Posted, Kind::Gives, *proxy, *ticket, 0),
        Item::Ticked { proxy } => of_ticket(Kind::Ticked, *proxy, 0),
        Item::Taken { proxy, ticket, .. } => of_ticket(Kind::Taken, *proxy, *ticket),
        Item::Pending { proxy, ticket } => of_ticket(Kind::Pending, *proxy, *ticket),
        Item::Left { proxy, ticket } => of_ticket(Kind::Left, *proxy, *ticket),
        Item::Reply { proxy, ticket, .. } => of_ticket(Kind::Reply, *proxy, *ticket),
        Item::Body { proxy, ticket, .. } => of_ticket(Kind::Body, *proxy, *ticket),
        Item::Sent {
            proxy,
            call,
            member,
            ..
        } => marked(Kind::Sent, Kind::Plain, *proxy, *call, *member),
        Item::Opened {
            proxy,
            stream,
            member,
            ..
        } => marked(Kind::Opened, Kind::Plain, *proxy, *stream, *member),
        Item::Closed { proxy, stream } => marked(Kind::Closed, Kind::Ends, *proxy, *stream, 0),
        Item::Executed { call, answer } => executed_mark(*call, answer),
        Item::Answered { call } => of_number(Kind::Answered, Kind::Settles, *call),
        Item::Lost { call } => of_number(Kind::Lost, Kind::Settles, *call),
        Item::Pushed { stream, item } => pushed_mark(*stream, item),
        Item::Delivered { stream } => of_number(Kind::Delivered, Kind::Plain, *stream),
        Item::Cut { stream } => of_number(Kind::Cut, Kind::Ends, *stream),
        Item::Expired { lease } => of_number(Kind::Expired, Kind::Plain, *lease),
        Item::Applied { member, revision } => marked(
            Kind::Applied,
            Kind::Plain,
            0,
            *member,
            *revision,
        ),
    }
}
