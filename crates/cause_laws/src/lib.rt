//! Laws on the causes of what clients are told, of every script: each refusal of a proxy has its cause in the transcript's items.
#![tactic(auto)]

ghost use Rattle.cause_laws.specs.Laws.{EachScriptsTimeoutsAreDue, EachScriptsOtherRepliesAreInTime, EachScriptsRequestsEnd, EachScriptsRepliesHaveCauses};

/// Each refusal that says that the time is over comes at the first step of the proxy that is five seconds or more behind the asking of its
/// request, and nothing but replies stands between. Each other reply to a request comes before such a step; and a request that waits at such a step
/// has a reply before the proxy's next.
pub fn timeouts_are_due()
    ensures due { EachScriptsTimeoutsAreDue }
    ensures others { EachScriptsOtherRepliesAreInTime }
    ensures ends { EachScriptsRequestsEnd }
{}

/// Each refusal has its cause in the items before it: the request's fields, a body that is no request, the time that is over, or a call of the
/// request that ended just before, refused by the store, lost, or answered with what isn't its reply.
pub fn replies_have_causes()
    ensures { EachScriptsRepliesHaveCauses }
{}
