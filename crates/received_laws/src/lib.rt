//! What the watches of every script of several proxies receive, by the very definition that the program's clause cites.
#![tactic(auto)]

ghost use Rattle.received_laws.specs.Laws.{EachScriptsWatchesReceive};

/// For every script and any number of proxies, at each step: what was taken of a watch, also of one that has left or was cancelled,
/// is at most one created message, then a front of the events that the history has for it from its start, each once and in order,
/// with true progress and the records before that it asked for, then at most one cancellation, which names a compaction above them.
/// A start that was left open is the revision behind that of the created message, and at most the one behind the newest.
pub fn watches_receive()
    ensures { EachScriptsWatchesReceive }
{}
