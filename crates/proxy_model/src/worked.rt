ghost use Rattle.proxy_model.specs.Worked.{Acquires, WritesAsGuest, WritesAsOwner, AsksRevoke, Rescinds, DeletesRound, DeletesAll, DeletesBehindZero};
ghost use Rattle.proxy_model.specs.Worked.{DeletesInOne, WritesTransaction, WritesShared};
ghost use Rattle.proxy_model.specs.Worked.{ReadsAcquired, ReadsBlocked, ReadsRevoked, ReadsParts, ReadsNested, RefusesOthers, RefusesFew};
ghost use Rattle.proxy_model.specs.Worked.{ReadsGuards, RefusesGuards, EndsPrefixes, EndsFullPrefixes};

/// Worked transactions and answers: the definitions give these by computation.
pub fn worked_transactions()
    ensures acquires { Acquires }
    ensures writes_as_guest { WritesAsGuest }
    ensures writes_as_owner { WritesAsOwner }
    ensures asks_revoke { AsksRevoke }
    ensures rescinds { Rescinds }
    ensures deletes_round { DeletesRound }
    ensures deletes_all { DeletesAll }
    ensures deletes_behind_zero { DeletesBehindZero }
    ensures deletes_in_one { DeletesInOne }
    ensures writes_transaction { WritesTransaction }
    ensures writes_shared { WritesShared }
    ensures reads_acquired { ReadsAcquired }
    ensures reads_blocked { ReadsBlocked }
    ensures reads_revoked { ReadsRevoked }
    ensures reads_parts { ReadsParts }
    ensures reads_nested { ReadsNested }
    ensures refuses_others { RefusesOthers }
    ensures refuses_few { RefusesFew }
    ensures reads_guards { ReadsGuards }
    ensures refuses_guards { RefusesGuards }
    ensures ends_prefixes { EndsPrefixes }
    ensures ends_full_prefixes { EndsFullPrefixes }
{}
