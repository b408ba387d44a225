//! Laws on how often a client's write runs, of every script: of the calls that name its ticket at most one did it.
#![tactic(auto)]

ghost use Rattle.once_laws.specs.Laws.{EachScriptsWritesRunOnce};

/// Of the calls that name a write's ticket in a life of its proxy at most one did the write, whenever they were executed; where the reply is ok
/// one did, before the reply; and where the reply says that nothing was done none did.
pub fn writes_run_once()
    ensures { EachScriptsWritesRunOnce }
{}
