ghost use Rattle.wait_model.specs.Worked.{OwnerIsDue, OwnerCompares, OwnerIsAnswered, OwnerFails, LeasedWaits, LeasedGoes, SecondWaits, SharedIsDue};
ghost use Rattle.wait_model.specs.Worked.{SharedCompares, SharedIsAnswered, OtherBranch, GuestIsBlocked, GuestFindsOwn, DeletionFrees, RevokedWaits, OwnerIsGuest};
ghost use Rattle.wait_model.specs.Worked.{SharedWaits, MarkedLeaves};
ghost use Rattle.wait_model.specs.WorkedSendings.{OwnerIsSent, OwnerIsLost, OwnerIsForgotten, DueOwnerIsForgotten, RescindIsSent, RescindIsAnswered, OlderRescind, RescindIsLost};
ghost use Rattle.wait_model.specs.WorkedSendings.{HeldEnds, GuestIsSent, RangeIsSent, RangeIsAnswered, AllFindOwner, OwnerIsAsked, OrphanLeaves, StrangerStays};
ghost use Rattle.wait_model.specs.WorkedSendings.{AcquireIsSpoiled, TransactionIsSent, TransactionIsAnswered, ResyncFrees, ResyncAwaits, RescindRefusesOthers, NothingIsDue};

/// Worked steps: the definitions give these by computation.
pub fn worked_steps()
    ensures owner_is_due { OwnerIsDue }
    ensures owner_compares { OwnerCompares }
    ensures owner_is_answered { OwnerIsAnswered }
    ensures owner_fails { OwnerFails }
    ensures leased_waits { LeasedWaits }
    ensures leased_goes { LeasedGoes }
    ensures second_waits { SecondWaits }
    ensures shared_is_due { SharedIsDue }
    ensures shared_compares { SharedCompares }
    ensures shared_is_answered { SharedIsAnswered }
    ensures other_branch { OtherBranch }
    ensures guest_is_blocked { GuestIsBlocked }
    ensures guest_finds_own { GuestFindsOwn }
    ensures deletion_frees { DeletionFrees }
    ensures revoked_waits { RevokedWaits }
    ensures owner_is_guest { OwnerIsGuest }
    ensures shared_waits { SharedWaits }
    ensures marked_leaves { MarkedLeaves }
{}

/// Worked sendings, losses and revocations: the definitions give these by computation.
pub fn worked_sendings()
    ensures owner_is_sent { OwnerIsSent }
    ensures owner_is_lost { OwnerIsLost }
    ensures owner_is_forgotten { OwnerIsForgotten }
    ensures due_owner_is_forgotten { DueOwnerIsForgotten }
    ensures rescind_is_sent { RescindIsSent }
    ensures rescind_is_answered { RescindIsAnswered }
    ensures older_rescind { OlderRescind }
    ensures rescind_is_lost { RescindIsLost }
    ensures held_ends { HeldEnds }
    ensures guest_is_sent { GuestIsSent }
    ensures range_is_sent { RangeIsSent }
    ensures range_is_answered { RangeIsAnswered }
    ensures all_find_owner { AllFindOwner }
    ensures owner_is_asked { OwnerIsAsked }
    ensures orphan_leaves { OrphanLeaves }
    ensures stranger_stays { StrangerStays }
    ensures acquire_is_spoiled { AcquireIsSpoiled }
    ensures transaction_is_sent { TransactionIsSent }
    ensures transaction_is_answered { TransactionIsAnswered }
    ensures resync_frees { ResyncFrees }
    ensures resync_awaits { ResyncAwaits }
    ensures rescind_refuses_others { RescindRefusesOthers }
    ensures nothing_is_due { NothingIsDue }
{}
