//! Laws of one step of a proxy, of what is out and of what its rows read: a call that is out stays, for what it is out for.
#![tactic(auto)]

ghost use Rattle.out_laws.specs.Laws.{OutStays, RowsReadSent};

/// A call that is out behind a step, and isn't the one that the step sends, was out before, the same; and what it is out for is what it was
/// out for: the acquire at its key under the same session, the write of the same request, the session of the same number.
pub fn what_is_out_stays()
    ensures { OutStays }
{}

/// What the view of true caches has of a proxy's keys reads the numbers of calls that were sent, and of no other.
pub fn rows_read_sent()
    ensures { RowsReadSent }
{}
