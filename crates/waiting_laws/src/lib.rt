//! Laws of what requests and watches of one proxy wait for, and of what its state keeps for it: none waits for nothing.
#![tactic(auto)]

ghost use Rattle.waiting_laws.specs.Laws.{RequestsWait, WatchesWait};
ghost use Rattle.waiting_laws.specs.Sound.{StartsSound, StepsStaySound, ClockWorkStaysSound, SoundIsNotIdle};

/// Each request of a proxy without a reply waits for something, and so does each of its watches that wasn't cancelled.
pub fn none_is_idle()
    ensures requests { RequestsWait }
    ensures watches { WatchesWait }
{}

/// A proxy is sound at its start, each of its steps keeps it so, whatever the event and the outcome, and so does its clock work; and of
/// one that is sound no request and no watch waits for nothing.
pub fn proxies_stay_sound()
    ensures starts { StartsSound }
    ensures steps { StepsStaySound }
    ensures clock { ClockWorkStaysSound }
    ensures idle { SoundIsNotIdle }
{}
