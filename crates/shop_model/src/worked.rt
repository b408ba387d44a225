ghost use Rattle.shop_model.specs.Worked.{KeptToTheDeadline, GoneAtTheDeadline, KeptAlive, GrantedOnce, RevokedLosesDeadline, EndsBeyondSixtyFourBits, LastsASecond, ReadsAsApplied};
ghost use Rattle.shop_model.specs.WorkedWatches.{EndsByNumber, EndsBeforeNoSuchWatch, TellsWhatCame, CanceledByCompaction};

/// Worked steps on leases and reads: the definitions give these answers by computation.
pub fn worked_leases()
    ensures kept_to_the_deadline { KeptToTheDeadline }
    ensures gone_at_the_deadline { GoneAtTheDeadline }
    ensures kept_alive { KeptAlive }
    ensures granted_once { GrantedOnce }
    ensures revoked_loses_deadline { RevokedLosesDeadline }
    ensures ends_beyond_sixty_four_bits { EndsBeyondSixtyFourBits }
    ensures lasts_a_second { LastsASecond }
    ensures reads_as_applied { ReadsAsApplied }
{}

/// Worked steps on watches: the definitions give these answers by computation.
pub fn worked_watches()
    ensures ends_by_number { EndsByNumber }
    ensures ends_before_no_such_watch { EndsBeforeNoSuchWatch }
    ensures tells_what_came { TellsWhatCame }
    ensures canceled_by_compaction { CanceledByCompaction }
{}
