//! Which items of a transcript have a text.
ghost use Rattle.text_laws.specs.Items.Laws.{ItemsHaveTextsAsMade, EachScriptsLinesWereRead, EachScriptHasTextsAsMade};

/// For every script, each item of its transcript has a text, which is read back as the item, exactly where what a proxy or the store made
/// of it has one: a request, an answer, a message, a JSON text, a member, a ticket or a stream. So each item that only repeats a line does.
pub fn items_have_texts_as_made()
    ensures lines { ItemsHaveTextsAsMade }
    ensures scripts { EachScriptHasTextsAsMade }
{}

/// The lines that are taken of a script's bytes are lines that have a text, each at its number.
pub fn lines_were_read()
    ensures { EachScriptsLinesWereRead }
{}
