//! Laws on the machine of the small store's server.
#![tactic(auto)]

ghost use Rattle.shop_laws.specs.StayTimed.{StartsTimed, StaysTimed};
ghost use Rattle.shop_laws.specs.StayOpen.{OpensWatch, KeepsWatch, FindsWatch};

/// A law: each lease of the store has one deadline, and each deadline its lease, whatever steps the machine has made.
pub fn each_lease_has_a_deadline()
    ensures starts { StartsTimed }
    ensures stays { StaysTimed }
{}

/// A law: a watch that was opened is known from then on, so that a push of it is never answered that it wasn't opened.
pub fn opened_watches_stay()
    ensures opens { OpensWatch }
    ensures keeps { KeepsWatch }
    ensures finds { FindsWatch }
{}
