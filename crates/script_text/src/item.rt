use etcd_types::{Answer, Bytes, Request, WatchItem};

/// An item of a transcript, with the numbers of `Line`. The ticket of a sent item may be 0, for a call of no request.
#[derive(Debug, PartialEq, Eq, Drop)]
pub enum Item {
    World {
        members: u64,
        namespace: Bytes,
        leasing: Bytes,
    },
    Started {
        proxy: u64,
    },
    Restarted {
        proxy: u64,
    },
    Clock {
        proxy: u64,
        millis: u64,
    },
    Asked {
        proxy: u64,
        ticket: u64,
        request: Request,
    },
    Posted {
        proxy: u64,
        ticket: u64,
        path: Bytes,
        body: Bytes,
    },
    Ticked {
        proxy: u64,
    },
    /// A call to a member is sent.
    Sent {
        proxy: u64,
        call: u64,
        member: u64,
        ticket: u64,
        request: Request,
    },
    /// A stream to a member is opened.
    Opened {
        proxy: u64,
        stream: u64,
        member: u64,
        request: Request,
    },
    Closed {
        proxy: u64,
        stream: u64,
    },
    Executed {
        call: u64,
        answer: Answer,
    },
    Answered {
        call: u64,
    },
    Lost {
        call: u64,
    },
    Pushed {
        stream: u64,
        item: WatchItem,
    },
    Delivered {
        stream: u64,
    },
    Cut {
        stream: u64,
    },
    Taken {
        proxy: u64,
        ticket: u64,
        item: WatchItem,
    },
    /// A client would take an item, and none is there.
    Pending {
        proxy: u64,
        ticket: u64,
    },
    Left {
        proxy: u64,
        ticket: u64,
    },
    Expired {
        lease: u64,
    },
    Applied {
        member: u64,
        revision: u64,
    },
    /// A proxy replies to a client.
    Reply {
        proxy: u64,
        ticket: u64,
        answer: Answer,
    },
    /// The HTTP status and the JSON text of a posted request's reply.
    Body {
        proxy: u64,
        ticket: u64,
        status: u64,
        text: Bytes,
    },
}
