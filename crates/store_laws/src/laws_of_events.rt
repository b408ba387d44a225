//! Laws of what watches of a store are told, over its definitions and in the subject's own words. Each is a public function
//! without a body.
ghost use Rattle.store_laws.specs.Events.WatchRuns.{TellEachOnce, TellAll, TellUpToNext, ProgressIsTrue, RequestsLeaveWatches, ExpiriesLeaveWatches};
ghost use Rattle.store_laws.specs.Events.WatchRuns.{AppliesLeaveWatches, OpeningsLeaveWatches, MessagesLeaveOtherWatches};
ghost use Rattle.store_laws.specs.Events.Previous.{PreviousAreEarlier, PreviousAreExact};

/// The messages of a watch, put one behind the other, are the history's events of its range from its start, each once and
/// in order: those up to the revision before the one that the watch waits for, and all of them where there is nothing to push.
pub fn watches_tell_each_event_once()
    ensures once { TellEachOnce }
    ensures next { TellUpToNext }
    ensures all { TellAll }
{}

/// A message on progress is true: all events up to its header's revision were told before it.
pub fn progress_is_true()
    ensures { ProgressIsTrue }
{}

/// The record before an event is an earlier one of the event's key, and comes only where it was asked for. Where no revision
/// changes a key twice, it is the one that the history has just before, as long as that is visible.
pub fn previous_records_are_earlier()
    ensures earlier { PreviousAreEarlier }
    ensures exact { PreviousAreExact }
{}

/// Between the messages of a watch every other step of the store leaves the watch as it is, and its history only grows.
pub fn other_steps_leave_watches()
    ensures requests { RequestsLeaveWatches }
    ensures expiries { ExpiriesLeaveWatches }
    ensures applies { AppliesLeaveWatches }
    ensures openings { OpeningsLeaveWatches }
    ensures messages { MessagesLeaveOtherWatches }
{}
