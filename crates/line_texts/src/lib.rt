//! No text of an item has a line feed: the text of a transcript is cut into the texts of its items.
#![tactic(auto)]

ghost use Rattle.line_texts.specs.Texts.{TranscriptsAreCut};

/// Line feeds cut a transcript's text into its items' texts.
pub fn transcripts_are_cut()
    ensures { TranscriptsAreCut }
{}
