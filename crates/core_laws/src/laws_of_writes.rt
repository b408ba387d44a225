//! What the rules on waiting writes keep, as laws over their definitions: nothing here does work.
ghost use Rattle.core_laws.specs.Writes.Laws.{Settles, KeepsKeys, AnswersKeep, LossesKeep, SessionEndKeeps, ForgettingKeeps, NoticesKeep, AsksKeep};
ghost use Rattle.core_laws.specs.Writes.Laws.{AcquiresKeep, SendingKeeps, OwnersAreCovered};
ghost use Rattle.core_laws.specs.Writes.Written.{RangesStay, AnswersKeepWritten};

/// After one pass each waiting write has what it waits for, and a pass keeps what holds of each key.
pub fn one_pass()
    ensures settles { Settles }
    ensures keeps { KeepsKeys }
{}

/// Every other step on writes and entries keeps what holds of each key.
pub fn each_step()
    ensures answers { AnswersKeep }
    ensures losses { LossesKeep }
    ensures session_end { SessionEndKeeps }
    ensures forgetting { ForgettingKeeps }
    ensures notices { NoticesKeep }
    ensures asks { AsksKeep }
    ensures acquires { AcquiresKeep }
    ensures sending { SendingKeeps }
{}

/// The owners that an answer shows are of keys that the write covers, which the law on answers asks for.
pub fn owners_shown()
    ensures { OwnersAreCovered }
{}

/// Every step keeps the ranges of each write those that its request writes, and so every answer whose ownership keys are bytes keeps
/// what holds of each key.
pub fn ranges_stay()
    ensures steps { RangesStay }
    ensures answers { AnswersKeepWritten }
{}
