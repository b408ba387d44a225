//! Theorems over whole scripts of several proxies, each on a public function with an empty body, by the very definitions that the
//! program's clauses cite.
#![tactic(auto)]

ghost use Rattle.world_laws.specs.Laws.{EachTranscriptHasTheStoresAnswers, EachTranscriptHasTheStoresMessages, RefusedLinesLeaveTheWorld};
ghost use Rattle.world_laws.specs.Laws.{WordsAreLineNumbers, TranscriptsGoOn, EachLineGainsItsOwn, StreamsAreWatches, StoresLive, StoresAreSound};

/// For every script and any number of proxies, each answer of its transcript is the store's, and so is each message of a stream.
pub fn answers_are_the_stores()
    ensures answers { EachTranscriptHasTheStoresAnswers }
    ensures messages { EachTranscriptHasTheStoresMessages }
{}

/// The store numbers its watches as the world its streams.
pub fn streams_are_watches()
    ensures { StreamsAreWatches }
{}

/// The store of a world is one that began empty and had steps done to it, and so it is sound.
pub fn stores_are_sound()
    ensures live { StoresLive }
    ensures sound { StoresAreSound }
{}

/// A line that can't be taken leaves the world, but for the step of the one proxy that made one.
pub fn refused_lines_leave_the_world()
    ensures { RefusedLinesLeaveTheWorld }
{}

/// The word that a line is given is its number, so no two lines have the same.
pub fn words_are_line_numbers()
    ensures { WordsAreLineNumbers }
{}

/// Where the lines up to one are taken, the transcript is what they gained and what the rest gains; and each line that is taken
/// gains its own item first.
pub fn lines_gain_in_order()
    ensures goes_on { TranscriptsGoOn }
    ensures own { EachLineGainsItsOwn }
{}
