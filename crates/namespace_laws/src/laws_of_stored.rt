//! A store under a namespace is the store of the bare keys, with the namespace before each key. Each law is a public function
//! without a body.
ghost use Rattle.namespace_laws.specs.Stored.Laws.{StoredStoresAnswer, RepliesUnwrap, RecordsAreStored, ExpiriesAreStored};
ghost use Rattle.namespace_laws.specs.Stored.StoredWatches.{StartsAreStored, OpeningsAreStored, PushesAreStored, ProgressIsStored, AppliesAreStored, ItemsUnwrap};
ghost use Rattle.namespace_laws.specs.Stored.Lives.{LivesAreStored};
ghost use Rattle.namespace_laws.specs.Stored.Claims.{AnswersComeBack, ClaimsComeBack, WritesComeBack};

/// Under a namespace a store does and answers what the store of the bare keys does and answers, and its replies unwrap with no
/// foreign key.
pub fn stored_stores_answer()
    ensures answers { StoredStoresAnswer }
    ensures expiries { ExpiriesAreStored }
    ensures unwrapped { RepliesUnwrap }
    ensures records { RecordsAreStored }
{}

/// So do its watches.
pub fn stored_stores_tell()
    ensures starts { StartsAreStored }
    ensures openings { OpeningsAreStored }
    ensures pushes { PushesAreStored }
    ensures progress { ProgressIsStored }
    ensures applies { AppliesAreStored }
    ensures unwrapped { ItemsUnwrap }
{}

/// A store to which only proxies of one namespace speak is the store of the bare keys, under the namespace.
pub fn lives_are_stored()
    ensures { LivesAreStored }
{}

/// What a proxy of the namespace is told of its own transactions is what the laws on the bare keys say.
pub fn answers_come_back()
    ensures answers { AnswersComeBack }
    ensures claims { ClaimsComeBack }
    ensures writes { WritesComeBack }
{}
