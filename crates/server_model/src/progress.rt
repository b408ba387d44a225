use crate::ends::SessionEnd;

/// How asking a request with one ticket went.
#[derive(Clone, Copy, Debug, PartialEq, Eq)]
pub enum Attempt {
    /// It has its whole reply.
    Whole,
    /// The ticket was in use.
    InUse,
}

/// What one take brought.
#[derive(Clone, Copy, Debug, PartialEq, Eq)]
pub enum Taken {
    /// Nothing is there yet.
    Nothing,
    /// A message behind which more is to come.
    Part,
    /// The reply, or the last message of a watch.
    Last,
}

/// Why no more is taken of a ticket, with the connection's end.
#[derive(Clone, Copy, Debug, PartialEq, Eq)]
pub enum Stop {
    /// More was to come.
    Unanswered(SessionEnd),
    /// All was taken, but not all of it was written.
    Answered(SessionEnd),
}
