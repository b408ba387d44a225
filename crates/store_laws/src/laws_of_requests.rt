//! Laws of the store, over its definitions and in the subject's own words. Each is a public function without a body.
ghost use Rattle.store_laws.specs.Requests.Requests.{MakeOneRevision, ExpiriesMakeOneRevision, RefusalsChangeNothing};
ghost use Rattle.store_laws.specs.Requests.NamedKeys.{UnnamedKeysStay, UnattachedKeysStay};
ghost use Rattle.store_laws.specs.Requests.Answered.{RefusalsAreKnown, RepliesTellRevisions};
ghost use Rattle.store_laws.specs.Requests.Branches.{BranchesAreNamed, BranchesLeave};
ghost use Rattle.store_laws.specs.Requests.Ranges.{RangesRise, RangesAreExact};

/// A request makes at most one revision, which has all its changes, and so does a lease that expires.
pub fn requests_make_one_revision()
    ensures requests { MakeOneRevision }
    ensures expiries { ExpiriesMakeOneRevision }
{}

/// A refused request changes nothing.
pub fn refusals_change_nothing()
    ensures { RefusalsChangeNothing }
{}

/// A refusal has one of the codes that say that nothing was done, and a reply tells the newest revision after the request, or
/// the one that the member has applied where the request asked for that.
pub fn answers_tell_what_was_done()
    ensures refusals { RefusalsAreKnown }
    ensures revisions { RepliesTellRevisions }
{}

/// A range shows exactly the records of its keys, in the order of the keys.
pub fn ranges_show_their_records()
    ensures order { RangesRise }
    ensures exact { RangesAreExact }
{}

/// A key that no operation of a request names keeps its record, and a key that is not on a lease when that expires.
pub fn unnamed_keys_stay()
    ensures requests { UnnamedKeysStay }
    ensures expiries { UnattachedKeysStay }
{}

/// A transaction changes only what the list that runs names, and where that has no transaction in it, each key has the
/// record that its operations leave one after the other.
pub fn only_the_chosen_branch_runs()
    ensures named { BranchesAreNamed }
    ensures left { BranchesLeave }
{}
