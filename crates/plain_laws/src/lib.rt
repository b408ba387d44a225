//! Laws of scripts with leasing off: nothing is cached, so each read is answered by a call of its own.
#![tactic(auto)]

ghost use Rattle.plain_laws.specs.Laws.{LeasingOffNamesReplies, LeasingOffReadsAreTrue};

/// With leasing off each ok reply to a request that isn't a keepalive stands behind a call of its proxy, in the same life, that names it; so
/// no read is answered without a call of its own.
pub fn replies_are_named_with_leasing_off()
    ensures named { LeasingOffNamesReplies }
    ensures reads { LeasingOffReadsAreTrue }
{}
