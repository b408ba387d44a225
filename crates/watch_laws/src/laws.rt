ghost use Rattle.watch_laws.specs.Laws.{JoinHoldsNothingBack, BatchHoldsNothingBack, ProgressHoldsNothingBack, MergeHoldsNothingBack};
ghost use Rattle.watch_laws.specs.Laws.{CutHoldsNothingBack, CancellationHoldsNothingBack, TakeHoldsNothingBack, MergedStandAlone, HistoriesRise};
ghost use Rattle.watch_laws.specs.Laws.{CreatedHoldsNothingBack, QueuesAreBounded};
ghost use Rattle.watch_laws.specs.Calls.{DeliveryHoldsNothingBack, CreationHoldsNothingBack, CutsHoldNothingBack, CancellationsHoldNothingBack};
ghost use Rattle.watch_laws.specs.Calls.{JobsHoldNothingBack, TakesHoldNothingBack, LeavingHoldsNothingBack, SplitHoldsNothingBack};
ghost use Rattle.watch_laws.specs.Alone.{JoinsLeaveAlone, CreationsLeaveAlone, DeliveriesLeaveAlone, MergesLeaveAlone, CutsLeaveAlone};
ghost use Rattle.watch_laws.specs.Alone.{CancellationsLeaveAlone, TakesLeaveAlone, LeavingLeavesAlone, SplitsLeaveAlone, JobsLeaveAlone};
ghost use Rattle.watch_laws.specs.Closings.{ClosingsHaveNone, JoinsLeaveClosings, CreationsLeaveClosings, DeliveriesLeaveClosings};
ghost use Rattle.watch_laws.specs.Closings.{MergesLeaveClosings, CutsLeaveClosings, CancellationsLeaveClosings, TakesLeaveClosings};
ghost use Rattle.watch_laws.specs.Closings.{LeavingLeavesClosings, SplitsLeaveClosings, JobsLeaveClosings};
ghost use Rattle.watch_laws.specs.Items.{JoinsKeepItems, CreationsKeepItems, DeliveriesKeepItems, MergesKeepItems, CutsKeepItems};
ghost use Rattle.watch_laws.specs.Items.{CancellationsKeepItems, TakesKeepItems, LeavingKeepsItems, SplitsKeepItems, JobsKeepItems, PushesAreShown};
ghost use Rattle.watch_laws.specs.Joins.{NewWhereNoneIsJoined, JoinedIsFurthest, JoinedCanBe};
ghost use Rattle.watch_laws.specs.Truths.{ProgressIsTrue};

/// No step holds anything back, merged streams have no twins, and queues are bounded.
pub fn nothing_is_held_back()
    ensures join { JoinHoldsNothingBack }
    ensures created { CreatedHoldsNothingBack }
    ensures batch { BatchHoldsNothingBack }
    ensures progress { ProgressHoldsNothingBack }
    ensures merge { MergeHoldsNothingBack }
    ensures cut { CutHoldsNothingBack }
    ensures cancellation { CancellationHoldsNothingBack }
    ensures take { TakeHoldsNothingBack }
    ensures alone { MergedStandAlone }
    ensures bounded { QueuesAreBounded }
    ensures rise { HistoriesRise }
{}

/// Nor does any call as a whole, whichever of its cases it takes.
pub fn no_call_holds_back()
    ensures delivery { DeliveryHoldsNothingBack }
    ensures creation { CreationHoldsNothingBack }
    ensures cut { CutsHoldNothingBack }
    ensures cancellation { CancellationsHoldNothingBack }
    ensures job { JobsHoldNothingBack }
    ensures take { TakesHoldNothingBack }
    ensures leaving { LeavingHoldsNothingBack }
    ensures split { SplitHoldsNothingBack }
{}

/// A stream that is due to be closed has no members, and each call keeps it so.
pub fn closings_are_left()
    ensures none { ClosingsHaveNone }
    ensures join { JoinsLeaveClosings }
    ensures creation { CreationsLeaveClosings }
    ensures delivery { DeliveriesLeaveClosings }
    ensures merge { MergesLeaveClosings }
    ensures cut { CutsLeaveClosings }
    ensures cancellation { CancellationsLeaveClosings }
    ensures take { TakesLeaveClosings }
    ensures leaving { LeavingLeavesClosings }
    ensures split { SplitsLeaveClosings }
    ensures job { JobsLeaveClosings }
{}

/// Between calls no two streams of one range that stand created have equal next.
pub fn streams_stand_alone()
    ensures join { JoinsLeaveAlone }
    ensures creation { CreationsLeaveAlone }
    ensures delivery { DeliveriesLeaveAlone }
    ensures merge { MergesLeaveAlone }
    ensures cut { CutsLeaveAlone }
    ensures cancellation { CancellationsLeaveAlone }
    ensures take { TakesLeaveAlone }
    ensures leaving { LeavingLeavesAlone }
    ensures split { SplitsLeaveAlone }
    ensures job { JobsLeaveAlone }
{}

/// A watch joins a stream that is furthest ahead of those that it can join, and a new one only where there is none.
pub fn joined_is_furthest()
    ensures new { NewWhereNoneIsJoined }
    ensures furthest { JoinedIsFurthest }
    ensures joined { JoinedCanBe }
{}

/// Where a watch is told of a revision by a message without events, all events up to it were queued before.
pub fn progress_is_true()
    ensures { ProgressIsTrue }
{}

/// What stands in a queue keeps its meaning until it is taken: a message without events is true where it stands, a record
/// before a change comes only where it was asked for and is the one just before, and no queue is longer than 1,024 events
/// or one message.
pub fn queued_items_hold()
    ensures join { JoinsKeepItems }
    ensures creation { CreationsKeepItems }
    ensures delivery { DeliveriesKeepItems }
    ensures merge { MergesKeepItems }
    ensures cut { CutsKeepItems }
    ensures cancellation { CancellationsKeepItems }
    ensures take { TakesKeepItems }
    ensures leaving { LeavingKeepsItems }
    ensures split { SplitsKeepItems }
    ensures job { JobsKeepItems }
    ensures pushed { PushesAreShown }
{}
