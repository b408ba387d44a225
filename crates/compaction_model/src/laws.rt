ghost use Rattle.compaction_model.specs.KeyLaws.{VersionsGiveRecords, VersionsGiveEarlier, VersionsGrow, VersionsFromRevision, KeptGiveNow};
ghost use Rattle.compaction_model.specs.KeyLaws.{KeptGiveEarlier, KeptHaveLater, KeptGrow, KeptGrowByChange, KeptAgain, PlacesGrow, PlacesAgain};
ghost use Rattle.compaction_model.specs.Worked.{KeepsAll, KeepsLastPut, DropsDeletions};

/// A law: the versions of a key give the record that the history leaves, and the record at a revision.
pub fn versions_are_the_history()
    ensures now { VersionsGiveRecords }
    ensures earlier { VersionsGiveEarlier }
    ensures grow { VersionsGrow }
    ensures later { VersionsFromRevision }
{}

/// A law: the kept versions answer at each revision from the compaction on as all versions do.
pub fn kept_versions_answer()
    ensures now { KeptGiveNow }
    ensures earlier { KeptGiveEarlier }
    ensures later { KeptHaveLater }
{}

/// A law: a revision puts its versions behind the kept ones, and a compaction keeps of the kept what it keeps of all.
pub fn kept_versions_step()
    ensures grow { KeptGrow }
    ensures change { KeptGrowByChange }
    ensures again { KeptAgain }
{}

/// A law: so do the places of changes.
pub fn kept_places_step()
    ensures grow { PlacesGrow }
    ensures again { PlacesAgain }
{}

/// Worked compactions: the definitions give these numbers by computation.
pub fn worked_compactions()
    ensures all { KeepsAll }
    ensures put { KeepsLastPut }
    ensures deletion { DropsDeletions }
{}
