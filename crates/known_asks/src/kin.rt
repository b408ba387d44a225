/// Requests that stand side by side by their tickets.
#[derive(Debug, Clone, Copy, PartialEq, Eq)]
pub(crate) enum Kin {
    /// Those of this rank and number.
    Stage(u64, u64),
    /// Reads that wait at keys of this number.
    Key(u64),
}
