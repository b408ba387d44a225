use etcd_types::{Bytes, Request};

/// A line of a script.
///
/// A proxy is a number from 1 to 64, a ticket one from 1 on; a call, a stream, a lease, a member to apply at, a
/// revision and milliseconds are any numbers below 2^63.
#[derive(Debug, PartialEq, Eq, Drop)]
pub enum Line {
    /// The first line: 1 to 9 members, the namespace and the leasing prefix.
    World {
        members: u64,
        namespace: Bytes,
        leasing: Bytes,
    },
    /// A proxy starts, or starts again.
    Start {
        proxy: u64,
    },
    /// A proxy's clock is set, in milliseconds.
    Clock {
        proxy: u64,
        millis: u64,
    },
    /// A client asks a proxy, under a ticket.
    Ask {
        proxy: u64,
        ticket: u64,
        request: Request,
    },
    /// A client posts a JSON body to a path.
    Post {
        proxy: u64,
        ticket: u64,
        path: Bytes,
        body: Bytes,
    },
    /// A proxy looks at its clock.
    Tick {
        proxy: u64,
    },
    /// A proxy's first due job is sent.
    Send {
        proxy: u64,
    },
    /// The store executes a call.
    Exec {
        call: u64,
    },
    /// A call's answer arrives at its proxy.
    Answer {
        call: u64,
    },
    /// A call is lost.
    Lose {
        call: u64,
    },
    /// The store pushes a message into a stream.
    Push {
        stream: u64,
    },
    /// A stream's oldest message arrives at its proxy.
    Deliver {
        stream: u64,
    },
    /// A stream is cut.
    Cut {
        stream: u64,
    },
    /// A client takes the next item of its watch.
    Take {
        proxy: u64,
        ticket: u64,
    },
    /// A client leaves.
    Leave {
        proxy: u64,
        ticket: u64,
    },
    /// A lease expires at the store.
    Expire {
        lease: u64,
    },
    /// A member has applied the revisions up to this one.
    Apply {
        member: u64,
        revision: u64,
    },
    /// The store tells a stream how far it has come.
    Progress {
        stream: u64,
    },
}
