/// What a thread is for, as far as it makes a difference to how it is made.
#[derive(Clone, Copy, Debug, PartialEq, Eq)]
pub enum Duty {
    /// The ticker's.
    Ticks,
    /// A connection's.
    Talks,
    /// Any other.
    Calls,
}
