//! Laws of the watches of one proxy, over the machine's definitions: no watch waits for nothing, nothing is held back, streams merge,
//! and queues are bounded.
ghost use Rattle.core_laws.specs.Watches.Laws.{StartWaits, WaitingNoneIsIdle, StepsKeepWaiting, RunsLeaveNoWatchIdle};
ghost use Rattle.core_laws.specs.Watches.Streams.{StepsHoldNothingBack, StepsLeaveAlone, StepsJoin, StepsKeepBounded};

/// After each step of a run from a proxy's start, each watch that wasn't cancelled waits for its stream, which is to be
/// opened, is being opened or stands, or was split off and its queue is to be taken. It holds at the start, and every step,
/// whatever its event and its outcome, keeps it together with the rising numbers of the streams.
pub fn no_watch_is_idle()
    ensures start { StartWaits }
    ensures none { WaitingNoneIsIdle }
    ensures steps { StepsKeepWaiting }
    ensures runs { RunsLeaveNoWatchIdle }
{}

/// Whatever comes to a proxy, each of its steps holds nothing back, leaves streams of one range that stand created with different next,
/// opens a stream for a watch that is asked only where it finds none to join, and keeps queues bounded.
pub fn steps_keep_streams()
    ensures held { StepsHoldNothingBack }
    ensures alone { StepsLeaveAlone }
    ensures joined { StepsJoin }
    ensures bounded { StepsKeepBounded }
{}
