ghost use Rattle.compaction_laws.specs.Laws.{RangesByKept, EarlierRangesByKept, AttachedByKept, OperationsByKept, EventsByKept};
ghost use Rattle.compaction_laws.specs.Laws.{RequestsByKept, ExpiriesByKept, AppliesByKept, OpeningsByKept, MessagesByKept, ProgressByKept};

/// A law: the records of a range, now and at each revision that can still be read, and those of a lease, are told by what is
/// kept alone.
pub fn ranges_by_kept()
    ensures now { RangesByKept }
    ensures earlier { EarlierRangesByKept }
    ensures attached { AttachedByKept }
{}

/// A law: operations run by what is kept alone, those of transactions within transactions too.
pub fn operations_by_kept()
    ensures { OperationsByKept }
{}

/// A law: what a watch is told from a revision that can still be read on, with the records before its events, is told by what
/// is kept alone.
pub fn events_by_kept()
    ensures { EventsByKept }
{}

/// A law: every step of a store, and what it answers, depends on what is kept alone, and what is then kept does too.
pub fn steps_by_kept()
    ensures requests { RequestsByKept }
    ensures expiries { ExpiriesByKept }
    ensures applies { AppliesByKept }
    ensures openings { OpeningsByKept }
    ensures messages { MessagesByKept }
    ensures progress { ProgressByKept }
{}
