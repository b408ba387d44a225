//! The sending of a proxy's first due job is a row of moves of the view of true caches.
#![tactic(auto)]

ghost use Rattle.step_moves.specs.Work.{WorkMoves};
ghost use Rattle.step_moves.specs.Lasting.{SendingStarts, SendingLasts, SendingRuns};

/// The first due job is sent: the view gains its call, in its form, or nothing goes out.
pub fn work_moves()
    ensures { WorkMoves }
{}

/// What that asks for beside lasts: entries stand in the order of their keys, and with leasing on clients' own calls write nothing.
pub fn sendings_fit()
    ensures starts { SendingStarts }
    ensures steps { SendingLasts }
    ensures runs { SendingRuns }
{}
