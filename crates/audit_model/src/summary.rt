/// What is reported of a transcript that keeps the rules.
#[derive(Clone, Copy, Debug, PartialEq, Eq)]
pub struct Summary {
    /// The number of its items.
    pub items: u64,
    /// The number of reads that were answered with no call of their own.
    pub unsent: u64,
    /// The number of watches that were asked.
    pub watches: u64,
}
