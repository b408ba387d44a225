use crate::ends::StoreEnd;

/// What one push brought.
#[derive(Clone, Copy, Debug, PartialEq, Eq)]
pub enum Pushed {
    /// There is nothing to tell yet.
    Nothing,
    /// A message behind which more is to come.
    Part,
    /// The last message of a watch.
    Last,
}

/// Why no more is pushed of a watch, with the connection's end.
#[derive(Clone, Copy, Debug, PartialEq, Eq)]
pub enum Stop {
    /// More was to come.
    Unanswered(StoreEnd),
    /// All was pushed, but not all of it was written.
    Answered(StoreEnd),
}
