ghost use Rattle.core_model.specs.WorkedReads.{Opens, SecondIsCached, OwnerWrites, ReadWaitsForOwner, SpoiledIsGivenUp, LostAcquireIsLost};
ghost use Rattle.core_model.specs.WorkedReads.{HeldToTheDeadline, RestsBeforeAcquire, TimesOut, JustInTime};
ghost use Rattle.core_model.specs.WorkedWrites.{GuestAsksOwner, OwnerGivesUp, LeasedGivesUp, TransactionIsNested, TransactionWritesThrough, RangeIsDeleted};
ghost use Rattle.core_model.specs.WorkedCalls.{AreRefused, GrantIsNumbered, StaleIsRefused, NextMemberIsAsked, LostPutIsLost, LateAnswerIsNothing};
ghost use Rattle.core_model.specs.WorkedCalls.{KeepalivesShare, LostKeepalivesAreLost, SnapshotIsCached, OthersArePassedOn, NumbersAreUnknown};
ghost use Rattle.core_model.specs.WorkedCalls.{WornDoesNothing};
ghost use Rattle.core_model.specs.WorkedSessions.{KeepaliveRenews, KeepaliveTooLate, KeepaliveEnds, AcquireEndsSession, DueOwnerIsGuest, CutGoesOn};
ghost use Rattle.core_model.specs.WorkedSessions.{NoAcquireWhileCut, CompactionGivesUp, AnewFrees, PeeksAtHeld, PeeksAtNone, LeastIsReady};

/// Worked reads: the definitions give these by computation.
pub fn worked_reads()
    ensures opens { Opens }
    ensures second_is_cached { SecondIsCached }
    ensures owner_writes { OwnerWrites }
    ensures read_waits_for_owner { ReadWaitsForOwner }
    ensures spoiled_is_given_up { SpoiledIsGivenUp }
    ensures lost_acquire_is_lost { LostAcquireIsLost }
    ensures held_to_the_deadline { HeldToTheDeadline }
    ensures rests_before_acquire { RestsBeforeAcquire }
    ensures times_out { TimesOut }
    ensures just_in_time { JustInTime }
{}

/// Worked writes: the definitions give these by computation.
pub fn worked_writes()
    ensures guest_asks_owner { GuestAsksOwner }
    ensures owner_gives_up { OwnerGivesUp }
    ensures leased_gives_up { LeasedGivesUp }
    ensures transaction_is_nested { TransactionIsNested }
    ensures transaction_writes_through { TransactionWritesThrough }
    ensures range_is_deleted { RangeIsDeleted }
{}

/// Worked calls, refusals and faults: the definitions give these by computation.
pub fn worked_calls()
    ensures are_refused { AreRefused }
    ensures grant_is_numbered { GrantIsNumbered }
    ensures stale_is_refused { StaleIsRefused }
    ensures next_member_is_asked { NextMemberIsAsked }
    ensures lost_put_is_lost { LostPutIsLost }
    ensures late_answer_is_nothing { LateAnswerIsNothing }
    ensures keepalives_share { KeepalivesShare }
    ensures lost_keepalives_are_lost { LostKeepalivesAreLost }
    ensures snapshot_is_cached { SnapshotIsCached }
    ensures others_are_passed_on { OthersArePassedOn }
    ensures numbers_are_unknown { NumbersAreUnknown }
    ensures worn_does_nothing { WornDoesNothing }
{}

/// Worked sessions and streams: the definitions give these by computation.
pub fn worked_sessions()
    ensures keepalive_renews { KeepaliveRenews }
    ensures keepalive_too_late { KeepaliveTooLate }
    ensures keepalive_ends { KeepaliveEnds }
    ensures acquire_ends_session { AcquireEndsSession }
    ensures due_owner_is_guest { DueOwnerIsGuest }
    ensures cut_goes_on { CutGoesOn }
    ensures no_acquire_while_cut { NoAcquireWhileCut }
    ensures compaction_gives_up { CompactionGivesUp }
    ensures anew_frees { AnewFrees }
    ensures peeks_at_held { PeeksAtHeld }
    ensures peeks_at_none { PeeksAtNone }
    ensures least_is_ready { LeastIsReady }
{}
