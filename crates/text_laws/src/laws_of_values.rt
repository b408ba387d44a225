//! Which answers, messages and requests have a text, said of their parts.
ghost use Rattle.text_laws.specs.Values.Laws.{AnswersHaveTexts, MessagesHaveTexts, RequestsHaveTexts};

/// Answers and messages whose bytes are bytes, whose numbers are below 2^63 and whose transactions nest at most 128 deep have a text; a
/// request has one exactly where its parts are such.
pub fn values_have_texts()
    ensures answers { AnswersHaveTexts }
    ensures messages { MessagesHaveTexts }
    ensures requests { RequestsHaveTexts }
{}
