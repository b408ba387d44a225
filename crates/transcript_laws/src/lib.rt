//! What is true of the transcript of every script: the headline, whose words are items alone.
#![tactic(auto)]

ghost use Rattle.transcript_laws.specs.Truth.{EachTranscriptIsTrue};

/// Of the bytes of every script, what its lines gain is a true transcript.
pub fn transcripts_are_true()
    ensures { EachTranscriptIsTrue }
{}
