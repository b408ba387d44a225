ghost use Rattle.store_model.specs.Worked.{PutsIntoEmpty, ReadsRecord, ReadsAbsent, PutsAgain, Deletes, DeletesNothing, ReadsEarlier};
ghost use Rattle.store_model.specs.Worked.{RefusesFuture, ReadsInOrder, ReadsLimited, RefusesEmptyKey, RefusesUnknownLease, ReadsApplied, RunsTransaction};

/// Worked steps: the definitions give these answers by computation.
pub fn worked_steps()
    ensures put { PutsIntoEmpty }
    ensures read { ReadsRecord }
    ensures absent { ReadsAbsent }
    ensures again { PutsAgain }
    ensures delete { Deletes }
    ensures nothing { DeletesNothing }
    ensures earlier { ReadsEarlier }
    ensures future { RefusesFuture }
    ensures order { ReadsInOrder }
    ensures limit { ReadsLimited }
    ensures empty_key { RefusesEmptyKey }
    ensures unknown_lease { RefusesUnknownLease }
    ensures applied { ReadsApplied }
    ensures transaction { RunsTransaction }
{}
