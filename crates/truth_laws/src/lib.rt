//! The reads that a proxy answers from its cache are true: each shows what the store holds at that step.
#![tactic(auto)]

ghost use Rattle.truth_laws.specs.Laws.{EachScriptsUnsentReadsAreTrue, EachScriptsUnsentSnapshotsAreTrue};

/// Every read of one key that was answered with no call of its own shows the store's record of that key, and every transaction without
/// writes that was answered so what the store answers to it; under a header that is no older than any that the proxy was given, and no
/// newer than the store. Every other range is named by a call.
pub fn unsent_reads_are_true()
    ensures reads { EachScriptsUnsentReadsAreTrue }
    ensures snapshots { EachScriptsUnsentSnapshotsAreTrue }
{}
