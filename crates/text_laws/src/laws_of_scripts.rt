//! What proxies send and reply, and what the store answers and tells them, has a text in every script.
ghost use Rattle.text_laws.specs.Scripts.Spoken.{WhatIsSpokenHasAText};
ghost use Rattle.text_laws.specs.Scripts.Asked.{WhatIsAskedHasAText, ReadScriptsSpeakInTexts};
ghost use Rattle.text_laws.specs.Scripts.Closed.{WhatIsClosedHasAText};
ghost use Rattle.text_laws.specs.Scripts.Growth.{StoresStaySmall, SmallScriptsSpeakInTexts};
ghost use Rattle.text_laws.specs.Scripts.Answered.{WhatIsAnsweredHasAText};
ghost use Rattle.text_laws.specs.Scripts.Posts.{ShortPostsHaveTexts};
ghost use Rattle.text_laws.specs.Scripts.Whole.{EachItemHasAText};
ghost use Rattle.text_laws.specs.Scripts.Scripts.{EachScriptsPostsAreShort, FewLinesMakeFewChanges, EachScriptHasTexts};

/// For every script whose lines were read, each request that a proxy sends, each watch that it opens, each answer that is executed and
/// each message that is pushed has a text and is read from it, where each request that is asked has one, as long as the store's
/// revisions, changes and leases stay below what a number of a text tells.
pub fn what_is_spoken_has_a_text()
    ensures { WhatIsSpokenHasAText }
{}

/// Of every script whose lines were read, each request that is asked has a text, where the request that is read of a posted body has one;
/// so each request that is sent, each watch that is opened, each answer and each message of the store has one, too.
pub fn read_scripts_speak_in_texts()
    ensures asked { WhatIsAskedHasAText }
    ensures spoken { ReadScriptsSpeakInTexts }
{}

/// Each line makes a revision and a lease at most; so the same holds of every script with few enough lines and changes of its store.
pub fn small_scripts_speak_in_texts()
    ensures small { StoresStaySmall }
    ensures spoken { SmallScriptsSpeakInTexts }
{}

/// Of every script whose lines were read, each item that tells that a stream is closed has a text: its number was given to a stream, and
/// there are no more of these than lines.
pub fn what_is_closed_has_a_text()
    ensures { WhatIsClosedHasAText }
{}

/// Of every script whose lines were read, each reply, each message that a watch takes, and the JSON text of either has a text, where each
/// request that is asked has one and each refusal of a posted body is bytes, as long as the store's numbers stay below half of what a
/// number of a text tells, and 128 for each line more.
pub fn what_is_answered_has_a_text()
    ensures { WhatIsAnsweredHasAText }
{}

/// What is read of a posted body has a text, and each refusal of one is bytes, where the body is shorter than a number of a text tells.
pub fn short_posts_have_texts()
    ensures { ShortPostsHaveTexts }
{}

/// So each item of the transcript of a script whose lines were read has a text, and is read from it, as long as posted bodies are short
/// enough, and there are few enough lines and changes of the store.
pub fn each_item_has_a_text()
    ensures { EachItemHasAText }
{}

/// For the bytes of every script: the bodies that it posts are short, its store makes few changes, and each item of its transcript has a text
/// and is read from it.
pub fn scripts_have_texts()
    ensures posts { EachScriptsPostsAreShort }
    ensures changes { FewLinesMakeFewChanges }
    ensures items { EachScriptHasTexts }
{}
