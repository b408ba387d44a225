//! What a store answers and tells has a text, where what it was asked has.
ghost use Rattle.text_laws.specs.Stores.Laws.{AnswersFit, MessagesFit, ExpiriesFit, AppliesFit, OpeningsFit, StartsFit};

/// Each answer of a store has a text where the request has one, and the store stays so, as long as its numbers are those of texts.
pub fn answers_fit()
    ensures { AnswersFit }
{}

/// Each message of a watch has a text, and the store stays so.
pub fn messages_fit()
    ensures { MessagesFit }
{}

/// A store begins so, and stays so where a lease expires, a member applies revisions, or a watch is opened whose request has a text.
pub fn stores_stay_fit()
    ensures starts { StartsFit }
    ensures expiries { ExpiriesFit }
    ensures applies { AppliesFit }
    ensures openings { OpeningsFit }
{}
