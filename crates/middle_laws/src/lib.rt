//! Laws on what a proxy answers from its cache: it is what the store has at that step, also where waiting reads are decided again in the
//! middle of it.
#![tactic(auto)]

ghost use Rattle.middle_laws.specs.Laws.{KeptRecordsAreTrue, DecidedRecordsAreTrue, SourcesAreTrue, GivenAreTrue, CachedReadsShowTheStore};
ghost use Rattle.middle_laws.specs.Laws.{CachedSnapshotsShowTheStore, CachedReadsUnwrap, CachedSnapshotsUnwrap};

/// What is held behind the clock work of a step, and where waiting reads are decided again in it, is what the store has.
pub fn held_records_are_true()
    ensures kept { KeptRecordsAreTrue }
    ensures decided { DecidedRecordsAreTrue }
{}

/// Each reply that a proxy gives from what it holds, of a read or of a transaction without writes, shows what the store has then.
pub fn cached_replies_are_true()
    ensures stand { SourcesAreTrue }
    ensures given { GivenAreTrue }
    ensures reads { CachedReadsShowTheStore }
    ensures snapshots { CachedSnapshotsShowTheStore }
{}

/// So they show what the store under the namespace has, to which the proxy speaks, without the namespace.
pub fn cached_replies_unwrap()
    ensures reads { CachedReadsUnwrap }
    ensures snapshots { CachedSnapshotsUnwrap }
{}
