use etcd_types::{Answer, Request, WatchItem};
use thiserror::Error;
use told_items::Told;

/// What comes to a proxy. Words are drawn, tickets name requests and watches, and calls and streams are numbered by the proxy.
#[derive(Debug, PartialEq, Eq, Drop)]
pub enum CoreEvent {
    /// A client asks.
    Ask {
        ticket: u64,
        request: Request,
        word: u64,
    },
    /// A member answered a call.
    Answer {
        call: u64,
        answer: Answer,
    },
    /// A call was lost.
    Lost {
        call: u64,
    },
    /// Time went on.
    Tick {
        word: u64,
    },
    /// A message came on a stream.
    Item {
        stream: u64,
        item: WatchItem,
    },
    /// A stream was cut.
    Cut {
        stream: u64,
    },
    /// A client takes what is there for it.
    Take {
        ticket: u64,
    },
    /// A client went away.
    Leave {
        ticket: u64,
    },
    /// A worker asks what is due.
    Work,
}

/// What is to be sent.
#[derive(Debug, PartialEq, Eq, Drop)]
pub enum Job {
    /// A call to a member, for this ticket or for 0.
    Call {
        call: u64,
        member: u32,
        ticket: u64,
        request: Request,
    },
    /// The opening of a stream at a member.
    Begin {
        stream: u64,
        member: u32,
        request: Request,
    },
    /// The closing of a stream.
    Close {
        stream: u64,
    },
}

/// What an event gives.
#[derive(Debug, Drop)]
pub enum Outcome {
    /// The reply to the request.
    Replied(Answer),
    /// The request waits.
    Waiting,
    /// There is nothing to be taken yet.
    Pending,
    /// The watch's next message.
    Item(Told),
    Noted,
    /// What is due first, or nothing.
    Job(Option<Job>),
}

/// Why an event gave nothing.
#[derive(Clone, Copy, Debug, PartialEq, Eq, Error)]
pub enum StepFault {
    /// The ticket is known already.
    #[error("ticket {0} is in use")]
    TicketUsed(u64),
    /// No request and no watch has this ticket.
    #[error("no ticket {0}")]
    NoSuchTicket(u64),
    /// No call of this number is out.
    #[error("no call {0}")]
    NoSuchCall(u64),
    /// No stream has this number.
    #[error("no stream {0}")]
    NoSuchStream(u64),
    /// The numbers of steps, calls or streams are used up.
    #[error("worn")]
    Worn,
    #[error("no memory")]
    NoMemory,
}
