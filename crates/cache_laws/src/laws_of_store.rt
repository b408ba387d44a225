//! The store's steps are moves of the view of true caches, so that what a proxy answers from its cache is what the store has.
ghost use Rattle.cache_laws.specs.Store.CallSteps.{WritesStep, AcquiresStep, RescindsStep, RevokeCallsStep, ReadsStep, RefusalsStep, UnseenStep, StartStands};
ghost use Rattle.cache_laws.specs.Store.LeaseSteps.{GrantsStep, KeepAlivesStep, ExpiriesStep, RevocationsStep};
ghost use Rattle.cache_laws.specs.Store.ToldAnswers.{ClaimsTell, WritesTell, EventsTell};
ghost use Rattle.cache_laws.specs.Store.CachedReads.{HeldRecordsAreTrue, CachedReadsAreTrue, CachedSnapshotsAreTrue};

/// The view stands for an empty store, and after each call of a proxy that the store executes or refuses.
pub fn calls_keep_the_view_of_the_store()
    ensures start { StartStands }
    ensures writes { WritesStep }
    ensures acquires { AcquiresStep }
    ensures rescinds { RescindsStep }
    ensures revokes { RevokeCallsStep }
    ensures reads { ReadsStep }
    ensures refusals { RefusalsStep }
    ensures unseen { UnseenStep }
{}

/// The view stands after each grant, keepalive, revocation and expiry of a lease.
pub fn leases_keep_the_view_of_the_store()
    ensures grants { GrantsStep }
    ensures keepalives { KeepAlivesStep }
    ensures expiries { ExpiriesStep }
    ensures revocations { RevocationsStep }
{}

/// What a proxy with a live session answers from its held entries is what the store answers at that moment.
pub fn cached_answers_are_true()
    ensures records { HeldRecordsAreTrue }
    ensures reads { CachedReadsAreTrue }
    ensures snapshots { CachedSnapshotsAreTrue }
{}

/// What a proxy reads from the answer to an acquire or to a guarded write is what the view has of that call, and the owner
/// that an event of the leasing stream tells is what the view has at its revision.
pub fn answers_tell_the_view()
    ensures claims { ClaimsTell }
    ensures writes { WritesTell }
    ensures events { EventsTell }
{}
