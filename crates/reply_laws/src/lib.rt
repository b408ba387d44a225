//! Laws on what clients of a proxy are told: where each ok reply comes from, and that what is out for a request is named by a call that was
//! sent.
#![tactic(auto)]

ghost use Rattle.reply_laws.specs.Laws.{RepliesHaveSources, GivenRepliesHaveSources, StartsNamed, StepsName};

/// Each ok reply comes from an answer that is heard at the step at which it comes to stand, or from the record of a key that is held on
/// the ground on which reads are decided at that step.
pub fn replies_have_sources()
    ensures stand { RepliesHaveSources }
    ensures given { GivenRepliesHaveSources }
{}

/// Whatever is out for a request by itself, and each acquire that is out, is named by a call that was sent: each step keeps that.
pub fn what_is_out_is_named()
    ensures starts { StartsNamed }
    ensures steps { StepsName }
{}
