ghost use Rattle.read_model.specs.Worked.{SecondJoins, BothAreReplied, SpoiledLeaves, DueFalls, OutStays, LostIsCalled};

/// Worked steps: the definitions give these by computation.
pub fn worked_reads()
    ensures second_joins { SecondJoins }
    ensures both_are_replied { BothAreReplied }
    ensures spoiled_leaves { SpoiledLeaves }
    ensures due_falls { DueFalls }
    ensures out_stays { OutStays }
    ensures lost_is_called { LostIsCalled }
{}
