//! The stories of the watches of every script, by items alone: of which streams each was a member, and what these brought to it.
#![tactic(auto)]

ghost use Rattle.watch_stories.specs.Laws.{EachScriptsTakesAreOfStories};

/// For every script and any number of proxies: each message that is taken of a watch is of that watch's story.
pub fn takes_are_of_stories()
    ensures { EachScriptsTakesAreOfStories }
{}
