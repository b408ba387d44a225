//! What holds of every store, and what becomes of its leases and its compaction revision. Each law is a public function
//! without a body.
ghost use Rattle.store_laws.specs.Lives.MadeRecords.{RecordsAreMade};
ghost use Rattle.store_laws.specs.Lives.TestedKeys.{KeysStayTested, ExpiriesKeepTested};
ghost use Rattle.store_laws.specs.Lives.Sound.{StartsSound, RequestsKeepSound, ExpiriesKeepSound, AppliesKeepSound, OpeningsKeepSound, MessagesKeepSound};
ghost use Rattle.store_laws.specs.Lives.Lives.{LivesAreSound};
ghost use Rattle.store_laws.specs.Lives.Leases.{LeasesStay, OtherLeasesStay, ExpiredLeasesGo, RevokedLeasesGo, AttachedKeysGo, GrantsAreThere, KeepAlivesTell, RecordsKeepLeases};
ghost use Rattle.store_laws.specs.Lives.Compactions.{CompactionsAreExact, CompactionsRise, OthersDontCompact};

/// A store that began empty is sound at all times, whatever is asked of it.
pub fn stores_are_sound()
    ensures made { RecordsAreMade }
    ensures starts { StartsSound }
    ensures requests { RequestsKeepSound }
    ensures expiries { ExpiriesKeepSound }
    ensures applies { AppliesKeepSound }
    ensures openings { OpeningsKeepSound }
    ensures messages { MessagesKeepSound }
    ensures lives { LivesAreSound }
{}

/// What the keys of all puts have in common, all keys of the history have in common.
pub fn keys_stay_tested()
    ensures requests { KeysStayTested }
    ensures expiries { ExpiriesKeepTested }
{}

/// A lease stays as it was granted until it is revoked or expires, and then it is gone with its keys. A grant and a keepalive
/// above 0 say that the lease is there.
pub fn leases_end_alone()
    ensures stay { LeasesStay }
    ensures others { OtherLeasesStay }
    ensures expired { ExpiredLeasesGo }
    ensures revoked { RevokedLeasesGo }
    ensures attached { AttachedKeysGo }
    ensures grants { GrantsAreThere }
    ensures keep_alives { KeepAlivesTell }
{}

/// A key is on the lease that it was on, or on one that a put of it named.
pub fn records_keep_leases()
    ensures { RecordsKeepLeases }
{}

/// A compaction moves the compaction revision up to a past revision and leaves all else; no other request moves it.
pub fn compactions_rise()
    ensures exact { CompactionsAreExact }
    ensures rise { CompactionsRise }
    ensures others { OthersDontCompact }
{}
