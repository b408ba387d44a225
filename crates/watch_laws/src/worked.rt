ghost use Rattle.watch_laws.specs.Worked.{Merges, Cancels, Removes, OpensFromNow, Progresses, Splits};

/// Worked scripts: the definitions give these by computation.
pub fn worked_scripts()
    ensures merges { Merges }
    ensures cancels { Cancels }
    ensures removes { Removes }
    ensures opens_from_now { OpensFromNow }
    ensures progresses { Progresses }
    ensures splits { Splits }
{}
