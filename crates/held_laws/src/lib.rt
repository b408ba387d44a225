//! A theorem over whole scripts of several proxies, on a public function with an empty body: nothing that the history has for one of
//! their watches is held back.
#![tactic(auto)]

ghost use Rattle.held_laws.specs.Laws.{WatchesHoldNothingBack};

/// For every script and any number of proxies, what was taken of a watch and what stands in its queue are all changes that the
/// history has for it from its start to below its next, each once and in order.
pub fn watches_hold_nothing_back()
    ensures { WatchesHoldNothingBack }
{}
