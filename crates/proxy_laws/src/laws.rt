ghost use Rattle.proxy_laws.specs.Answers.{AnswersFit, ClaimsAreTrue, WritesAreTrue, RescindsAreTrue, RevokesAreTrue, SnapshotsAreTrue};
ghost use Rattle.proxy_laws.specs.Ownership.{RangesStayUnderPrefix, OwnersAreNamed};
ghost use Rattle.proxy_laws.specs.Split.{PartsGoRound};

/// What the store answers to a proxy's own transactions is read as what the store has: which branch ran, the records,
/// and the owners.
pub fn answers_are_true()
    ensures fit { AnswersFit }
    ensures claims { ClaimsAreTrue }
    ensures writes { WritesAreTrue }
    ensures rescinds { RescindsAreTrue }
    ensures revokes { RevokesAreTrue }
    ensures snapshots { SnapshotsAreTrue }
{}

/// The parts of a range delete have each key of the range that is outside the leasing range once, and no other.
pub fn parts_go_round()
    ensures { PartsGoRound }
{}

/// A range under the leasing prefix has the ownership keys of the range's own keys, and an owner found in one is told by
/// the key that it owns.
pub fn ownership_keys_name_their_keys()
    ensures ranges { RangesStayUnderPrefix }
    ensures owners { OwnersAreNamed }
{}
