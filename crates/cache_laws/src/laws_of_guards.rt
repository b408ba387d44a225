//! The guard law: what each of a proxy's own transactions changes in a store, that the store answers them, and which keys
//! stand in the leasing range. Keys are bare.
ghost use Rattle.cache_laws.specs.Guards.Covers.{SingleWritesAreGuards};
ghost use Rattle.cache_laws.specs.Guards.GuardLaw.{WritesAreGuarded, WritesLeave, AcquiresClaim, RescindsDelete, RevokesMark};
ghost use Rattle.cache_laws.specs.Guards.Answered.{SnapshotsAreAnswered, AcquiresAreAnswered, AcquiresLackLease, RescindsAreAnswered};
ghost use Rattle.cache_laws.specs.Guards.Answered.{RevokesAreAnswered, PutsAreAnswered, PutsLackLease, DeletesAreAnswered};
ghost use Rattle.cache_laws.specs.Guards.OwnershipKeys.{WritesPutOwned, OwnersPutOwned, ReadsPutOwned, FoundOwnersAreNamed};
ghost use Rattle.cache_laws.specs.Guards.OwnerEvents.{WritesPutAlone, OwnersPutAlone, ReadsPutAlone, EndsPutAlone, OwnerEventsTell};

/// Each of a proxy's own transactions changes only what its guards let it change.
pub fn calls_are_guarded()
    ensures singles { SingleWritesAreGuards }
    ensures writes { WritesAreGuarded }
    ensures left { WritesLeave }
    ensures acquires { AcquiresClaim }
    ensures rescinds { RescindsDelete }
    ensures revokes { RevokesMark }
{}

/// The store answers a proxy's own transactions whatever it holds, but for a put or an acquire whose lease isn't there.
pub fn calls_are_answered()
    ensures snapshots { SnapshotsAreAnswered }
    ensures acquires { AcquiresAreAnswered }
    ensures acquire_refusals { AcquiresLackLease }
    ensures rescinds { RescindsAreAnswered }
    ensures revokes { RevokesAreAnswered }
    ensures puts { PutsAreAnswered }
    ensures put_refusals { PutsLackLease }
    ensures deletes { DeletesAreAnswered }
{}

/// Every key of the leasing range is an ownership key, and so an owner that is found is told by the key that it owns.
pub fn ownership_keys_are_alone()
    ensures writes { WritesPutOwned }
    ensures owners { OwnersPutOwned }
    ensures reads { ReadsPutOwned }
    ensures found { FoundOwnersAreNamed }
{}

/// A put of an ownership key makes a revision of its own, and so the event that tells it tells the key's record then.
pub fn puts_of_ownership_keys_are_alone()
    ensures writes { WritesPutAlone }
    ensures owners { OwnersPutAlone }
    ensures reads { ReadsPutAlone }
    ensures ends { EndsPutAlone }
    ensures told { OwnerEventsTell }
{}
