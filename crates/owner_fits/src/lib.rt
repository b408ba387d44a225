//! What each step of one proxy keeps of its acquires, of the keys that it owns, and of the owners that its writes found.
#![tactic(auto)]

ghost use Rattle.owner_fits.specs.Laws.{StartsFit, StepsFit, RunsFit, DueAcquiresStand, WritesAreUnleased, StartsNamed, StepsName, RunsName};

/// Acquires are of keys that may be owned and, where they are due, under the session that stands, and each one's call is answered to
/// it; the keys that are owned may be, and what is written isn't put with a lease. So it is at a proxy's start, and after every step.
pub fn owners_fit()
    ensures starts { StartsFit }
    ensures steps { StepsFit }
    ensures runs { RunsFit }
{}

/// An acquire that is the first due job is the one that stands at its key, so it goes out under the session that stands.
pub fn due_acquires_stand()
    ensures { DueAcquiresStand }
{}

/// What a proxy writes as an owner it doesn't put with a lease.
pub fn writes_are_unleased()
    ensures { WritesAreUnleased }
{}

/// No entry is of the empty key, and each owner that a write found has a key and a create revision, where answers and events name
/// owners so.
pub fn names_fit()
    ensures starts { StartsNamed }
    ensures steps { StepsName }
    ensures runs { RunsName }
{}
