//! Laws of the whole machine of one proxy, over its definitions.
ghost use Rattle.core_laws.specs.Steps.Kept.{StepsKeep, RunsKeep, RunsLeaveNoneIdle, RunsShareKeepalives};
ghost use Rattle.core_laws.specs.Steps.Laws.{NoRequestIsIdle, StartFits, HeldReadIsReplied, AcquirableReadAcquires};
ghost use Rattle.core_laws.specs.Steps.Staying.{StepsStay};
ghost use Rattle.core_laws.specs.Steps.Outcomes.{WornDoesNothing, StepsGive};

/// All that is to hold of a proxy holds at its start, and where it holds, each request that has no reply waits for something.
pub fn no_request_is_idle()
    ensures start { StartFits }
    ensures none { NoRequestIsIdle }
{}

/// What a plain read comes to at its own step.
pub fn plain_reads()
    ensures held_read_is_replied { HeldReadIsReplied }
    ensures acquirable_read_acquires { AcquirableReadAcquires }
{}

/// A step gives an outcome of its event's kind, or a fault that leaves only the clock work; of a worn proxy it does nothing.
pub fn steps_give()
    ensures worn_does_nothing { WornDoesNothing }
    ensures gives { StepsGive }
{}

/// Every step keeps all that is to hold of a proxy; so it holds after each step of a run, no request waits for nothing then, and of
/// each lease one keepalive is out at most, and none is due beside it.
pub fn steps_keep()
    ensures steps { StepsKeep }
    ensures runs { RunsKeep }
    ensures none_is_idle { RunsLeaveNoneIdle }
    ensures keepalives_share { RunsShareKeepalives }
{}

/// Every step leaves the settings, the leasing prefix, and the leasing stream once there is one.
pub fn steps_stay()
    ensures { StepsStay }
{}
