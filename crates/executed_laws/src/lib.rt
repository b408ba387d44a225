//! Laws on what clients are told, of every script: ok replies are the answers of executed calls that were sent for them.
#![tactic(auto)]

ghost use Rattle.executed_laws.specs.Laws.{EachScriptsRepliesAreExecuted};
ghost use Rattle.executed_laws.specs.Standing.{KeepalivesStandOnce};

/// Each ok reply of a transcript is what the caller of an executed call takes it to be that was sent for its request and names it, or for the
/// keepalives that share it; or no call names its request.
pub fn replies_are_executed()
    ensures { EachScriptsRepliesAreExecuted }
{}

/// Behind each prefix of a script, at each proxy, one keepalive of a lease is out at most, and none is due beside it.
pub fn keepalives_stand_once()
    ensures { KeepalivesStandOnce }
{}
