//! Laws of plain reads, over their definitions: no read waits for nothing, a held key is read with no call, and one that may be
//! acquired is acquired.
ghost use Rattle.core_laws.specs.PlainReads.Kept.{GoingOnKeeps, AsksKeep, SendingKeeps, NoticesKeep, AnswersKeep, LossesKeep, SessionEndKeeps};
ghost use Rattle.core_laws.specs.PlainReads.Kept.{AcquiresKeep, AcquireLossesKeep, TakingOffKeeps};
ghost use Rattle.core_laws.specs.PlainReads.InPlace.{PlainInPlace, AgainInPlace, AnswersInPlace, WinsInPlace};
ghost use Rattle.core_laws.specs.PlainReads.Laws.{ReleaseStands, NoReadIsIdle, HeldIsReplied, HeldIsLive, AcquirableIsAcquired};

/// After a release each waiting read has what it waits for.
pub fn release_stands()
    ensures { ReleaseStands }
{}

/// What a read waits for, and what it comes to at its own step.
pub fn reads_wait()
    ensures no_read_is_idle { NoReadIsIdle }
    ensures held_is_replied { HeldIsReplied }
    ensures held_is_live { HeldIsLive }
    ensures acquirable_is_acquired { AcquirableIsAcquired }
{}

/// Each step keeps what holds of reads, acquires and entries.
pub fn reads_keep()
    ensures going_on { GoingOnKeeps }
    ensures asks { AsksKeep }
    ensures notices { NoticesKeep }
    ensures sending { SendingKeeps }
    ensures answers { AnswersKeep }
    ensures losses { LossesKeep }
    ensures session_end { SessionEndKeeps }
    ensures acquires { AcquiresKeep }
    ensures acquire_losses { AcquireLossesKeep }
    ensures taking_off { TakingOffKeeps }
{}

/// Reads that are decided again make no acquire, so a release is one change of each in its place.
pub fn released_in_place()
    ensures plain { PlainInPlace }
    ensures again { AgainInPlace }
    ensures answers { AnswersInPlace }
    ensures wins { WinsInPlace }
{}
