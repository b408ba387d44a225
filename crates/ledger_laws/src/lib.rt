//! The world of a script is told by its items: who reads only a transcript knows its proxies, calls, streams and session floors.
#![tactic(auto)]

ghost use Rattle.ledger_laws.specs.Laws.{EachWorldIsTold};

/// Behind each prefix of a script its items tell its world.
pub fn worlds_are_told()
    ensures { EachWorldIsTold }
{}
