use crate::fault::AuditRefusal;

/// How far a transcript was read.
#[derive(Clone, Copy, Debug, PartialEq, Eq)]
pub enum AuditEnding {
    /// No line was refused so far.
    Open,
    /// The line of this number, from 1, is the first that was refused.
    Refused { number: u64, refusal: AuditRefusal },
    /// The first refused line passes a limit.
    PastLimit,
}
