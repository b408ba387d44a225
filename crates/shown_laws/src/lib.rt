//! Behind each script the world of a replay is shown by the view of true caches.
#![tactic(auto)]

ghost use Rattle.shown_laws.specs.Fetches.{FetchesStayShown};
ghost use Rattle.shown_laws.specs.Sendings.{SendingsStayShown};
ghost use Rattle.shown_laws.specs.Worlds.{EachWorldIsShown};

/// A proxy that sends a call leaves a world that is shown: the view gains the call behind all others, in its form.
pub fn sendings_stay_shown()
    ensures { SendingsStayShown }
{}

/// So does the fetching of the replies that stand ready behind a step.
pub fn fetches_stay_shown()
    ensures { FetchesStayShown }
{}

/// With leasing on the world is shown behind each script of fewer than 2^60 lines, where what its answers show is made of bytes.
pub fn each_world_is_shown()
    ensures { EachWorldIsShown }
{}
