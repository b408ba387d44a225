ghost use Rattle.replay_model.specs.Laws.{EachScriptHasATranscript, FewLinesAreTaken, LinesMakeTheScript};

/// What the lines of a script gain is the transcript of the lines that were taken.
pub fn a_script_has_a_transcript()
    ensures { EachScriptHasATranscript }
{}

/// No more lines of a script are taken than it may have.
pub fn few_lines_are_taken()
    ensures { FewLinesAreTaken }
{}

/// A script is its whole lines, each with its line feed, and the line that has begun.
pub fn lines_make_the_script()
    ensures { LinesMakeTheScript }
{}
