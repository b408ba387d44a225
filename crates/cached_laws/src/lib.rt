//! Must acquire: a key that a proxy has nothing of stays new until something is asked of it, and a read of a new key is first sent as its
//! acquire; of one proxy, whatever comes to it. What a transcript's items tell of that, and that each turn of a proxy keeps it so.
#![tactic(auto)]

ghost use Rattle.cached_laws.specs.Laws.{StartsUntouched, NewKeysStayNew, NewReadsWait, AwaitedReadsWait, AwaitedReadsAcquire, MustAcquire};

/// Every key is new to a proxy at its start, and stays so until a request is about it or the revoking word comes for it.
pub fn new_keys_stay_new()
    ensures starts { StartsUntouched }
    ensures stay { NewKeysStayNew }
{}

/// A read of a new key waits for the acquire that it makes due, and the call that names it first is that acquire.
pub fn new_reads_are_acquired()
    ensures asked { NewReadsWait }
    ensures goes_on { AwaitedReadsWait }
    ensures named { AwaitedReadsAcquire }
    ensures first { MustAcquire }
{}
